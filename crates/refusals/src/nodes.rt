//! Lists of nodes, of which tapes are made or none.

use refusals_common::{Fault, read, say, say_bytes};
use sj_tape::{Array, Node, Tape, Value, to_tape};
use sj_text_core::{ValueAsScalar, Writable};
use std::alloc::Global;

/// Makes a tape of each list, and tells its print, or that it was refused and all nodes came back.
///
/// A list is a JSON array of its nodes: `["A",len,count]` and `["O",len,count]` begin an array and an
/// object, each other item is the node of that scalar or text.
pub fn tell(rt: &(impl Print + AllocGlobal), lists: &[String]) -> Result<(), Fault> {
    let mut out = Vec::new(rt.alloc());
    for list in lists {
        write_told(rt.alloc(), list.as_str(), &mut out)?;
        out.push(b'\n')?;
    }
    say_bytes(rt, out.as_slice())
}

fn write_told(alloc: Global, list: &str, out: &mut Vec<u8>) -> Result<(), Fault> {
    let mut bytes = list.as_bytes().to_vec(alloc)?;
    let spelled = read(to_tape(alloc, bytes.as_mut_slice()))?;
    let Some(items) = spelled.as_value().as_array() else {
        return Err(Fault::Usage);
    };
    let nodes = nodes_of(alloc, items)?;
    let given = nodes_of(alloc, items)?;
    match Tape::new(nodes) {
        Ok(tape) => Ok(tape.as_value().write(out)?),
        Err(refused) if refused.value.as_slice() == given.as_slice() => Ok(out.extend_from_slice(
            b"refused",
        )?),
        Err(_) => Ok(out.extend_from_slice(b"OTHER NODES")?),
    }
}

fn nodes_of<'t, 'i>(alloc: Global, items: Array<'t, 'i>) -> Result<Vec<Node<'i>>, Fault> {
    let mut nodes = Vec::with_capacity(alloc, items.len())?;
    for item in items.iter() {
        match node_of(item) {
            Some(node) => nodes.push(node)?,
            None => return Err(Fault::Usage),
        }
    }
    Ok(nodes)
}

fn node_of<'i>(item: Value<'_, 'i>) -> Option<Node<'i>> {
    let Some(parts) = item.as_array() else {
        return item.nodes().split_first().map(|(node, _)| node);
    };
    let len = parts.get(1)?.as_usize()?;
    let count = parts.get(2)?.as_usize()?;
    match parts.get(0)?.as_str()? {
        "A" => Some(Node::Array { len, count }),
        "O" => Some(Node::Object { len, count }),
        _ => None,
    }
}
