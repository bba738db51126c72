//! Lines between the nodes of a cluster, which have its name if it has one.
ghost use Rattle.std.specs.Prelude.{◌≡◌, ◌≤◌, ◌⊎◌, IfErr, IfOk, length};
ghost use Rattle.cluster_names.specs.Lines.{IsNextLine, IsSorted, line_sent};
ghost use Rattle.wire_json.specs.Lines.{max_line};

use crate::names::ClusterName;
use message_core::WireError;
use std::alloc::{AllocError, Global};
use std::io::{BufReader, Read};
use wire_json::{MAX_LINE, read_line};

/// A line of another node.
#[derive(Debug, Drop)]
pub enum Line {
    /// One of this node's cluster, without its name.
    Own(Vec<u8>),
    /// One of another cluster or of none, as it came. A node whose cluster has no name knows none.
    Foreign(Vec<u8>),
}

/// Returns a line as a node of this cluster sends it: with its name, if it has one.
///
/// # Errors
///
/// - `LineTooLong`: with the name the line has more than 1,048,576 bytes.
/// - `Memory`: out of memory.
pub fn line_sent(
    alloc: Global,
    cluster: &Option<ClusterName>,
    line: Vec<u8>,
) -> Result<Vec<u8>, WireError>
    ensures sent { IfOk result (λ v. v.items ≡ line_sent cluster.now line.items) }
    ensures err { IfErr result (λ e. (e ≡ WireError.Memory) ⊎ (e ≡ WireError.LineTooLong)) }
{
    let Some(name) = cluster else {
        return Ok(line);
    };
    let named = name.put_before(alloc, &line)?;
    if named.len() > MAX_LINE {
        return Err(WireError::LineTooLong);
    }
    Ok(named)
}

/// Returns a line that came to a node of this cluster, without the cluster's name, or as one of another.
///
/// # Errors
///
/// - `AllocError`: out of memory.
pub fn sorted(
    alloc: Global,
    cluster: &Option<ClusterName>,
    line: Vec<u8>,
) -> Result<Line, AllocError>
    ensures { IfOk result (IsSorted cluster.now line.items) }
{
    let Some(name) = cluster else {
        return Ok(Line::Own(line));
    };
    match name.take_off(alloc, &line)? {
        Some(plain) => Ok(Line::Own(plain)),
        None => Ok(Line::Foreign(line)),
    }
}

/// Reads one line of a stream; None at its end.
///
/// # Errors
///
/// - `LineTooLong`: the line has more than 1,048,576 bytes.
/// - `Io`: the stream failed.
/// - `Memory`: out of memory.
pub fn next_line<S: Read + Drop>(alloc: Global, stream: S) -> Result<Option<Vec<u8>>, WireError>
    ensures { IsNextLine (S.remaining stream) result }
{
    let Ok(mut reader) = BufReader::new(alloc, stream) else {
        return Err(WireError::Memory);
    };
    read_line(alloc, &mut reader)
}
