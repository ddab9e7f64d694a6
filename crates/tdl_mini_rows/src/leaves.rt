// The leaf of each value, in a row of its own.
ghost use Rattle.std.specs.Prelude.{◌≡◌, false, not, IfOk, IsTrue, OnOk};
ghost use Rattle.tdl_control.specs.Key.{takes_word};
ghost use Rattle.tdl_control.specs.Map.{put};
ghost use Rattle.tdl_control.specs.Setting.{Number as NumberSetting, Spelling};
ghost use Rattle.tdl_control.specs.Word.{word_bytes};
ghost use Rattle.tdl_expr.specs.Tree.{Pure};
ghost use Rattle.tdl_mini_tree.specs.Values.{integer_of, value_number};
ghost use Rattle.tdl_mini_tree.specs.View.{value_of};
ghost use Rattle.tdl_rows.specs.Built.{one_row};
ghost use Rattle.tdl_mini_rows.specs.Leaves.{key_of, leaf_of};
ghost use Rattle.tdl_rows.specs.Lowers.{LowersTo};
ghost use Rattle.tdl_mini_rows.specs.inside.Views.{play_of};
ghost use Rattle.tdl_mini_tree.specs.Valid.{is_integer, is_value};
ghost use Rattle.tdl_mini_rows.specs.Arguments.{is_argument};
ghost use Rattle.tdl_mini_rows.specs.inside.Bounds.{is_played, kind_of};
ghost use Rattle.tdl_mini_rows.specs.inside.Turns.{choices_of, ComeInTurn, FitInTable};

use crate::numbers::index_of;
use crate::play::Play;
use std::alloc::Global;
use tdl_control::{Key, Leaf, Map, NoMemory, Value as Setting, Word};
use tdl_expr::{Node, NodeId, PushFault, Table};
use tdl_mini_tree::{Kind, Number, Value};

/// A row for a value.
pub(crate) fn push_value(
    alloc: Global,
    play: &Play,
    value: &Value,
    table: &mut Table,
) -> Result<NodeId, PushFault>
    requires played { IsTrue (is_played play.now) }
    requires value { IsTrue (is_value (kind_of play.now) (value_of value.now)) }
    requires turn { ComeInTurn play.now table.old (value_number (value_of value.now)) }
    ensures { LowersTo table.old table.new (one_row 0 (Pure (play_of play.now (value_of value.now)))) result }
{
    table.table_law();
    let leaf = played_leaf(alloc, play, value)?;
    table.push(Node::Pure { leaf })
}

fn played_leaf(alloc: Global, play: &Play, value: &Value) -> Result<Leaf, NoMemory>
    requires played { IsTrue (is_played play.now) }
    requires value { IsTrue (is_value (kind_of play.now) (value_of value.now)) }
    requires fits { FitInTable (choices_of play.now) (value_number (value_of value.now)) }
    ensures { IfOk result (λ leaf. leaf ≡ play_of play.now (value_of value.now)) }
{
    match play {
        Play::Values(kind) => leaf_of(alloc, *kind, value),
        Play::Indices(numbers) => Ok(Leaf::Index(index_of(numbers, value))),
    }
}

fn leaf_of(alloc: Global, kind: Kind, value: &Value) -> Result<Leaf, NoMemory>
    requires played { IsTrue (not (is_argument kind)) }
    requires value { IsTrue (is_value kind (value_of value.now)) }
    ensures { IfOk result (λ leaf. leaf ≡ leaf_of kind (value_of value.now)) }
{
    let mut map = Map::new(alloc);
    match value {
        Value::Sound { word, number } => {
            map.set(Key::S, Setting::Word(*word))?;
            if let Some(number) = number {
                set_number(&mut map, Key::N, *number)?;
            }
        }
        Value::Name(word) => map.set(key_of(kind), Setting::Word(*word))?,
        Value::Note(note) => map.set(key_of(kind), Setting::Int(*note))?,
        Value::Number(number) => set_number(&mut map, key_of(kind), *number)?,
        Value::Truth(truth) => return Ok(Leaf::Truth(*truth)),
    }
    Ok(Leaf::Controls(map))
}

// The key that the values of a text of a kind are given to.
fn key_of(kind: Kind) -> Key
    ensures { result ≡ key_of kind }
{
    match kind {
        Kind::Note { key } | Kind::Int { key } | Kind::Word { key } => key,
        Kind::Sound | Kind::Bool | Kind::Count | Kind::Ratio => Key::S,
    }
}

fn set_number(map: &mut Map, key: Key, number: Number) -> Result<(), NoMemory>
    requires key { takes_word key ≡ false }
    requires number { IsTrue (is_integer number) }
    ensures { OnOk result (map.new ≡ put map.old key (NumberSetting (integer_of number))) }
{
    map.set(key, Setting::Int(number.integer() as i32))
}
