// Rows of keys and of texts.
ghost use Rattle.std.specs.Prelude.{◌≡◌, ◌<◌, ◌^◌, false, unsigned_abs};
ghost use Rattle.tdl_control.specs.Key.{takes_word};
ghost use Rattle.tdl_control.specs.declared.leaves.Leaf.{Leaf as LeafValue};
ghost use Rattle.tdl_expr.specs.Tree as tree;
ghost use Rattle.tdl_rows.specs.Built.{one_row};
ghost use Rattle.tdl_rows.specs.Lowers.{LowersTo};
ghost use Rattle.tdl_mini_tree.specs.declared.leaves.Kind.TheVariants.{Bool};
ghost use Rattle.tdl_prepare.specs.Built.{bools_built, number_built, setting_built};
ghost use Rattle.tdl_command.specs.Valid.{IsTextOf, IsValidSetting};
ghost use Rattle.tdl_command.specs.View.{reading_of, setting_of};

use std::alloc::Global;
use tdl_command::Setting;
use tdl_control::{Key, Leaf, Map, Value};
use tdl_expr::{Node, NodeId, PushFault, Table};
use tdl_mini_rows::lower;
use tdl_mini_tree::Tree;

pub(crate) fn silence(table: &mut Table) -> Result<NodeId, PushFault>
    ensures { LowersTo table.old table.new (one_row 0 tree.Silence) result }
{
    table.push(Node::Silence)
}

fn pure(table: &mut Table, leaf: Leaf) -> Result<NodeId, PushFault>
    ensures { LowersTo table.old table.new (one_row 0 (tree.Pure leaf)) result }
{
    table.push(Node::Pure { leaf })
}

/// The row of a key and what it is set to.
pub(crate) fn setting_row(
    alloc: Global,
    key: Key,
    setting: &Setting,
    table: &mut Table,
) -> Result<NodeId, PushFault>
    requires { IsValidSetting key setting.now }
    ensures { LowersTo table.old table.new (setting_built key (setting_of setting.now)) result }
{
    match setting {
        Setting::Text(text) => lower(alloc, text, table),
        Setting::Number(number) => number_row(alloc, key, number.integer(), table),
        Setting::Negative(number) => number_row(alloc, key, -number.integer(), table),
    }
}

fn number_row(alloc: Global, key: Key, number: i64, table: &mut Table) -> Result<NodeId, PushFault>
    requires key { takes_word key ≡ false }
    requires small { unsigned_abs number < 2 ^ 31 }
    ensures { LowersTo table.old table.new (number_built key number) result }
{
    let mut controls = Map::new(alloc);
    controls.set(key, Value::Int(number as i32))?;
    pure(table, Leaf::Controls(controls))
}

/// The row of a text of truth values.
pub(crate) fn bools_row(alloc: Global, text: &Tree, table: &mut Table) -> Result<NodeId, PushFault>
    requires { IsTextOf Bool text.now }
    ensures { LowersTo table.old table.new (bools_built (reading_of text.now)) result }
{
    lower(alloc, text, table)
}
