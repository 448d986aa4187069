//! The lines that tell which step stands from which byte on.

ghost use Rattle.std.specs.Prelude.{◌≡◌, ◌≤◌, ◌++◌, length};
ghost use Rattle.flashbase.specs.Sinks.{PutsTo};
ghost use Rattle.jcuts.specs.Lines.{node_line, weak_line, end_line, end_text, text_of_node, text_of_nodes, step_nodes};

use crate::standing::Standing;
use flashbase::{DeviceFault, Sink};
use jline::{LineBuffer, put_text};

/// What is told of nodes.
#[derive(Clone, Copy, Debug, PartialEq, Eq)]
pub enum Telling {
    /// A line for each, a line below it on its weak cut, and a last line with the numbers.
    Nodes,
    /// The weak cuts alone, each as a note of the program.
    WeakNotes,
}

/// A node, and its step: the number of its operation's line, the step's number in its operation,
/// and how many steps that has.
#[derive(Clone, Copy, Debug, PartialEq, Eq)]
pub struct StepNode {
    pub line: usize,
    pub step: usize,
    pub steps: usize,
    pub standing: Standing,
}

/// Writes a node's line over what a buffer has.
fn write_node(text: &mut LineBuffer, node: &StepNode)
    ensures text { text.new ≡ node_line node.now }
    ensures short { length text.new ≤ 200 }
{
    text.clear();
    text.push_hex(8, u64::from(node.standing.addr));
    text.push_text(b" ");
    text.push_decimal(u64::from(node.standing.totlen));
    text.push_text(b" line ");
    text.push_decimal(node.line as u64);
    text.push_text(b" step ");
    text.push_decimal(node.step as u64);
    text.push_text(b" of ");
    text.push_decimal(node.steps as u64);
    text.push_text(b" stands from ");
    text.push_hex(8, u64::from(node.standing.stands_from));
    text.push_text(b"\n");
}

/// Writes the line of a weak cut after what a buffer has.
fn push_weak(text: &mut LineBuffer, addr: u32, cut: usize)
    requires { length text.old ≤ 200 }
    ensures { text.new ≡ text.old ++ weak_line addr cut }
{
    text.push_text(b"weak ");
    text.push_hex(8, u64::from(addr));
    text.push_text(b" at ");
    text.push_decimal(cut as u64);
    text.push_text(b"\n");
}

/// Writes what is told of a node over what a buffer has.
fn write_told(text: &mut LineBuffer, telling: Telling, node: &StepNode)
    ensures { text.new ≡ text_of_node telling node.now }
{
    match telling {
        Telling::Nodes => {
            write_node(text, node);
            if let Some(cut) = node.standing.weak {
                push_weak(text, node.standing.addr, cut);
            }
        }
        Telling::WeakNotes => {
            text.clear();
            if let Some(cut) = node.standing.weak {
                text.push_text(b"jffs2_image: note: ");
                push_weak(text, node.standing.addr, cut);
            }
        }
    }
}

/// Puts what is told of the nodes of one operation, whose line has this number.
pub fn put_nodes<T: Sink>(
    sink: &mut T,
    telling: Telling,
    line: usize,
    nodes: &[Standing],
) -> Result<(), DeviceFault>
    ensures { PutsTo T.Sink sink.old sink.new
        (text_of_nodes telling (step_nodes line (length nodes.now) 1 nodes.now)) result }
{
    let mut text = LineBuffer::new();
    let mut i = 0;
    while i < nodes.len() {
        let node = StepNode {
            line,
            step: i + 1,
            steps: nodes.len(),
            standing: nodes[i],
        };
        write_told(&mut text, telling, &node);
        put_text(sink, text.as_slice())?;
        i += 1;
    }
    Ok(())
}

/// Writes the last line over what a buffer has.
fn write_end(text: &mut LineBuffer, ops: usize, nodes: usize, from: u32, end: u32, weak: usize)
    ensures { text.new ≡ end_line ops nodes from end weak }
{
    text.clear();
    text.push_text(b"total operations ");
    text.push_decimal(ops as u64);
    text.push_text(b" steps ");
    text.push_decimal(nodes as u64);
    text.push_text(b" from ");
    text.push_hex(8, u64::from(from));
    text.push_text(b" to ");
    text.push_hex(8, u64::from(end));
    text.push_text(b" weak ");
    text.push_decimal(weak as u64);
    text.push_text(b"\n");
}

/// Puts the last line, where nodes are told.
pub fn put_end<T: Sink>(
    sink: &mut T,
    telling: Telling,
    ops: usize,
    nodes: usize,
    from: u32,
    end: u32,
    weak: usize,
) -> Result<(), DeviceFault>
    ensures { PutsTo T.Sink sink.old sink.new (end_text telling ops nodes from end weak) result }
{
    match telling {
        Telling::Nodes => {
            let mut text = LineBuffer::new();
            write_end(&mut text, ops, nodes, from, end, weak);
            put_text(sink, text.as_slice())
        }
        Telling::WeakNotes => Ok(()),
    }
}
