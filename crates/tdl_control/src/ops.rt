/// How two control maps are joined. Where one of them alone has a key, its value stays. Where both have
/// it, `Union` takes the right map's value, and the others compute the left value, then the operator,
/// then the right value.
#[derive(Clone, Copy, Debug, PartialEq, Eq)]
pub enum MapOp {
    Union,
    Add,
    Sub,
    Mul,
}
