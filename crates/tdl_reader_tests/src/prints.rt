// Tables in words.
use tdl_control::{Leaf, NoMemory, Text};
use tdl_expr::{Ids, Node, StepList, Table};
use tdl_fraction::Frac;

/// The rows in their order, with `; ` between them.
pub fn print_table(table: &Table, out: &mut Text) -> Result<(), NoMemory> {
    for index in 0..table.rows() {
        if index > 0 {
            out.add(b"; ")?;
        }
        print_node(table.get(table.id(index)), out)?;
    }
    Ok(())
}

fn print_node(node: &Node, out: &mut Text) -> Result<(), NoMemory> {
    match node {
        Node::Silence => out.add(b"~"),
        Node::Pure { leaf } => print_leaf(leaf, out),
        Node::Fast { rate, child } => {
            out.add(b"fast ")?;
            out.add(rate.print().bytes())?;
            print_number(b" ", u64::from(child.index()), out)
        }
        Node::TimeCat { steps } => print_steps(steps, out),
        Node::Cat { children } => print_rows(b"cat", children, out),
        Node::Stack { children } => print_rows(b"stack", children, out),
        Node::Rev { child } => print_number(b"rev ", u64::from(child.index()), out),
        Node::Pick { selector, children } => {
            print_number(b"pick ", u64::from(selector.index()), out)?;
            print_rows(b"", children, out)
        }
        // No text of mini-notation makes these.
        Node::When { .. }
        | Node::Shift { .. }
        | Node::Join { .. }
        | Node::Ply { .. }
        | Node::Gate { .. } => out.add(b"?"),
    }
}

fn print_leaf(leaf: &Leaf, out: &mut Text) -> Result<(), NoMemory> {
    match leaf {
        Leaf::Controls(map) => map.print(out),
        Leaf::Truth(truth) => out.add(if *truth { b"true" } else { b"false" }),
        Leaf::Index(index) => print_number(b"#", u64::from(*index), out),
    }
}

fn print_rows(name: &[u8], ids: &Ids, out: &mut Text) -> Result<(), NoMemory> {
    out.add(name)?;
    for i in 0..ids.len() {
        print_number(b" ", u64::from(ids.get(i).index()), out)?;
    }
    Ok(())
}

fn print_steps(steps: &StepList, out: &mut Text) -> Result<(), NoMemory> {
    out.add(b"timecat")?;
    for i in 0..steps.len() {
        let step = steps.get(i);
        print_number(b" ", step.weight, out)?;
        print_number(b"*", u64::from(step.child.index()), out)?;
    }
    Ok(())
}

// A number behind these bytes; `?` above 2^36.
fn print_number(before: &[u8], number: u64, out: &mut Text) -> Result<(), NoMemory> {
    out.add(before)?;
    match Frac::of(i128::from(number), 1) {
        Some(number) => out.add(number.print().bytes()),
        None => out.add(b"?"),
    }
}
