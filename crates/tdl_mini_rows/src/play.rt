// What the values of a text become.
use tdl_expr::Fracs;
use tdl_mini_tree::Kind;

/// Leaves of a kind, or indices of numbers in a list.
#[derive(Clone, Copy)]
pub(crate) enum Play<'a> {
    Values(Kind),
    Indices(&'a Fracs),
}
