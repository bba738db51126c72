//! The table of members, for eyes.
ghost use Rattle.std.specs.Prelude.{◌≡◌, ◌≤◌, ◌∷◌, ◌++◌, [], IfOk, IsOkUnless, string_bytes};
ghost use Rattle.change_core.specs.Numbers.{greatest_weight};
ghost use Rattle.cli_core.specs.Table.{member_row, served_weight, share_text, table_text, total_weight};

use crate::faults::RunError;
use change_core::Change;
use std::alloc::Global;

/// The names of the columns.
const HEAD: &str = "ADDRESS               STATUS    INCARNATION      WEIGHT SHARE";

/// Returns the weight with which a member serves, 0 if it does not.
fn served_weight(member: &Change) -> u64
    ensures weight { result ≡ served_weight member.now }
    ensures least { result ≤ greatest_weight }
{
    if member.status.serving() {
        u64::from(member.weight.number())
    } else {
        0
    }
}

/// Returns the weights with which members serve, added up.
fn total_weight(members: &[Change]) -> u128
    ensures { result ≡ total_weight members.now }
{
    let mut total = 0;
    'members: for member in members {
        total += u128::from(served_weight(member));
    }
    total
}

/// Returns the share that this weight has of a total, in percent with one decimal, rounded down; `-` for none.
fn share_text(alloc: Global, weight: u64, total: u128) -> Result<String, RunError>
    requires { weight ≤ greatest_weight }
    ensures text { IfOk result (λ s. string_bytes s ≡ share_text weight total) }
    ensures refusal { IsOkUnless result RunError.OutOfMemory }
{
    if weight == 0 || total == 0 {
        return Ok(String::from_str(alloc, "-")?);
    }
    let thousandths = u128::from(weight) * 1000 / total;
    let (percent, tenth) = (thousandths / 10, thousandths % 10);
    Ok(format!(in alloc; "{percent}.{tenth} %")?)
}

/// Returns the row of a member, behind a newline.
fn member_row(alloc: Global, total: u128, member: &Change) -> Result<String, RunError>
    ensures text { IfOk result (λ s. string_bytes s ≡ member_row total member.now) }
    ensures refusal { IsOkUnless result RunError.OutOfMemory }
{
    let address = member
        .address
        .text(alloc)
        .map_err(|_| RunError::OutOfMemory)?;
    let share = share_text(alloc, served_weight(member), total)?;
    let (address, share) = (address.as_str(), share.as_str());
    let status = member.status.word();
    let incarnation = member.incarnation.number();
    let weight = member.weight.number();
    Ok(format!(in alloc; "\n{address:<21} {status:<9} {incarnation:<16} {weight:<6} {share}")?)
}

/// Returns the names of the columns and a row for each member: address, status, incarnation, weight and the share of the
/// keys that its weight gives it; without the last newline.
///
/// # Errors
///
/// - `OutOfMemory`: out of memory.
pub fn table_text(alloc: Global, members: &[Change]) -> Result<String, RunError>
    ensures text { IfOk result (λ s. string_bytes s ++ 10 ∷ [] ≡ table_text members.now) }
    ensures refusal { IsOkUnless result RunError.OutOfMemory }
{
    let total = total_weight(members);
    let mut text = String::from_str(alloc, HEAD)?;
    'members: for member in members {
        let row = member_row(alloc, total, member)?;
        text.push_str(row.as_str())?;
    }
    Ok(text)
}
