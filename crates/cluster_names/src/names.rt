//! The name of a cluster, before a line and taken off it.
ghost use Rattle.std.specs.Prelude.{◌≡◌, ◌≢◌, ◌↔◌, ◌++◌, ℕ, List, drop, IfNone, IfOk, IfSome, IsTrue};
ghost use Rattle.std.specs.Prelude.{nat_eq};
ghost use Rattle.std.specs.Cmp.Lexicographic.{pointwise, nat_list_eq_equiv};
ghost use Rattle.std.specs.Cmp.{partial_equiv_from_equiv};
ghost use Rattle.cluster_names.specs.Names.{IsName, IsPlain, is_name_byte, named, opening};

use std::alloc::{AllocError, Global};
use std::fmt;
use std::marker::Model;

/// The most bytes of a name.
pub const MAX_NAME_BYTES: usize = 64;

/// The bytes of a line before the name that it has.
pub const BEFORE_NAME: &[u8] = b"{\"cluster\":\"";

/// The bytes of a line between the name and what follows in the line.
const AFTER_NAME: &[u8] = b"\",";

/// Returns whether a byte may stand in a name.
fn is_name_byte(byte: u8) -> bool
    ensures { result ≡ is_name_byte byte }
{
    byte.is_ascii_alphanumeric() || matches!(byte, b'.' | b'_' | b'-')
}

/// Returns whether bytes are a name: 1 to 64 letters and digits of ASCII, `.`, `_` and `-`.
pub fn is_name(bytes: &[u8]) -> bool
    ensures { IsTrue result ↔ IsName bytes.now }
{
    !bytes.is_empty()
        && bytes.len() <= MAX_NAME_BYTES
        && bytes.iter().all(|byte| is_name_byte(*byte))
}

/// Returns the bytes without the first one.
fn without_first(bytes: &[u8]) -> &[u8]
    ensures { result.now ≡ drop 1 bytes.now }
{
    match bytes {
        [_, rest @ ..] => rest,
        [] => bytes,
    }
}

/// Returns what follows a beginning in bytes; None if they do not begin with it.
fn rest_after<'l>(bytes: &'l [u8], beginning: &[u8]) -> Option<&'l [u8]>
    ensures some { IfSome result (λ rest. bytes.now ≡ beginning.now ++ rest.now) }
    ensures none { IfNone result ((rest : List ℕ) → bytes.now ≢ beginning.now ++ rest) }
{
    bytes.strip_prefix(beginning)
}

/// The name of a cluster: 1 to 64 letters and digits of ASCII, `.`, `_` and `-`. Contracts see its bytes.
#[derive(Debug, Drop)]
pub struct ClusterName {
    text: String,
}

impl Model for ClusterName {
    ghost use Rattle.std.specs.Prelude.{ℕ, List, string_bytes};
    ghost use Rattle.cluster_names.specs.Names.{IsName};

    ghost Value = { List ℕ };

    ghost view = { λ n. string_bytes n.text };

    ghost invariant = { λ n. IsName (string_bytes n.text) };
}

impl ClusterName {
    /// Makes the name with this text; None if it is the name of no cluster.
    ///
    /// # Errors
    ///
    /// - `AllocError`: out of memory.
    pub fn new(alloc: Global, text: &str) -> Result<Option<Self>, AllocError>
        ensures name { IfOk result (λ made. IfSome made (λ name. name ≡ text.now)) }
        ensures none { IfOk result (λ made. IfNone made (¬ IsName text.now)) }
    {
        if !is_name(text.as_bytes()) {
            return Ok(None);
        }
        let text = String::from_str(alloc, text)?;
        Ok(Some(ClusterName { text }))
    }

    /// Returns the text of the name.
    pub fn as_str(&self) -> &str
        ensures text { result.now ≡ self.now }
        ensures name { IsName result.now }
    {
        self.text.as_str()
    }

    /// Returns the beginning of the lines that have this name.
    fn opening(&self, alloc: Global) -> Result<Vec<u8>, AllocError>
        ensures { IfOk result (λ bytes. bytes.items ≡ opening self.now) }
    {
        let mut bytes = Vec::from_slice(alloc, BEFORE_NAME)?;
        bytes.extend_from_slice(self.text.as_bytes())?;
        bytes.extend_from_slice(AFTER_NAME)?;
        Ok(bytes)
    }

    /// Returns the line of a node of this cluster for a line without a name: `"cluster"` and the name come first, in place of the
    /// line's first byte, which is a brace.
    ///
    /// # Errors
    ///
    /// - `AllocError`: out of memory.
    pub fn put_before(&self, alloc: Global, line: &[u8]) -> Result<Vec<u8>, AllocError>
        ensures { IfOk result (λ bytes. bytes.items ≡ named self.now line.now) }
    {
        let mut bytes = self.opening(alloc)?;
        bytes.reserve(line.len())?;
        bytes.extend_from_slice(without_first(line))?;
        Ok(bytes)
    }

    /// Returns the line without a name for a line of a node of this cluster; None for any other line.
    ///
    /// # Errors
    ///
    /// - `AllocError`: out of memory.
    pub fn take_off(&self, alloc: Global, line: &[u8]) -> Result<Option<Vec<u8>>, AllocError>
        ensures own { IfOk result (λ taken. IfSome taken (λ plain. IsPlain plain.items × (line.now ≡ named self.now plain.items))) }
        ensures other { IfOk result (λ taken. IfNone taken ((plain : List ℕ) → line.now ≢ named self.now plain)) }
    {
        let opening = self.opening(alloc)?;
        let Some(rest) = rest_after(line, &opening) else {
            return Ok(None);
        };
        let mut plain = Vec::with_capacity(alloc, rest.len() + 1)?;
        plain.extend_from_slice(b"{")?;
        plain.extend_from_slice(rest)?;
        Ok(Some(plain))
    }
}

impl Clone for ClusterName {
    ghost is_clone = { λ name copy. copy ≡ name };

    fn clone(&self) -> Result<ClusterName, AllocError> {
        let text = self.text.clone()?;
        Ok(ClusterName { text })
    }
}

impl PartialEq for ClusterName {
    ghost eq = { pointwise nat_eq };

    ghost laws = { partial_equiv_from_equiv nat_list_eq_equiv };

    fn eq(&self, other: &ClusterName) -> bool {
        self.text.as_str() == other.text.as_str()
    }
}

impl fmt::Display for ClusterName {
    ghost use Rattle.std.specs.Prelude.{Some};

    ghost output = { λ name. Some name };

    fn fmt<W: fmt::Write>(&self, f: &mut fmt::Formatter<W>) -> fmt::Result {
        f.write_str(self.text.as_str())
    }
}
