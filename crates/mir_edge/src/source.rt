ghost use Rattle.std.specs.Prelude.{◌≡◌, ◌≢◌, ◌⊎◌, ℕ, ◌+◌, ◌<◌, ◌≤◌, ◌^◌, List, [], length, drop, Option, Some, IfOk, OnOk, OnErr, IsOk, IsErrOf, vec_len};
ghost use Rattle.mir_edge.specs.Faults.{HasRisen};
ghost use Rattle.mir_edge.specs.Source.{IsRead, LeavesRest, AppendsFirst};
ghost use Rattle.mir_edge.specs.Told.{WhereTold};

use crate::Fault;
use mir_base::List;
use std::alloc::{AllocError, Global};
use thiserror::Error;

/// Where bytes come from.
///
/// Contracts see two things of it: the bytes that are left, where it tells them, and a count of
/// faults. The count is a `u64`. Where it stands at the greatest `u64` it cannot be seen to rise, and
/// counts as risen.
pub trait Source {
    ghost left: { Self → Option (List ℕ) };

    ghost faults: { Self → ℕ };

    /// Moves bytes to the front of `into`, which is not empty, and answers how many. 0 is the end:
    /// where the source tells its bytes, it comes exactly where none is left. [`Fault`] comes only
    /// where the count of faults rose in the call, and then no byte was taken.
    fn read(&mut self, into: &mut [u8]) -> Result<usize, Fault>
        requires { 0 < length into.old }
        ensures within { IfOk result (λ n. n ≤ length into.new) }
        ensures counts { faults self.old ≤ faults self.new }
        ensures fault { OnErr result (HasRisen (faults self.old) (faults self.new)) }
        ensures bytes { IsRead (left self.old) (left self.new) into.new result };
}

/// Why the bytes of a source were not all read.
#[derive(Clone, Copy, Debug, Error)]
pub enum ReadAllError {
    /// A read failed; the source's count of faults rose.
    #[error("a read failed")]
    ReadFault,
    /// The source gave more bytes than the limit.
    #[error("more bytes than the limit")]
    TooLong,
    /// Memory was wanted and could not be had.
    #[error("out of memory")]
    Memory,
}

/// Reads all bytes that a source has left, of which at most `limit` may come. One byte more is
/// [`ReadAllError::TooLong`], and no further byte is taken then.
///
/// It holds memory for the bytes that came, and not for the limit.
pub fn read_all<S: Source>(
    alloc: Global,
    source: &mut S,
    limit: usize,
) -> Result<List<u8>, ReadAllError>
    requires { limit < 2 ^ 32 }

    // At any source.
    ensures counts { S.faults source.old ≤ S.faults source.new }
    ensures read_fault { IsErrOf result ReadAllError.ReadFault →
        HasRisen (S.faults source.old) (S.faults source.new) }
    ensures within { IfOk result (λ list. length list ≤ limit) }

    // Where the source tells its bytes.
    ensures whole { IfOk result (λ list. WhereTold (S.left source.old) (λ bytes. list ≡ bytes)) }
    ensures none_left { OnOk result (WhereTold (S.left source.old) (λ _.
        S.left source.new ≡ Some [])) }
    ensures too_long { IsErrOf result ReadAllError.TooLong → WhereTold (S.left source.old) (λ bytes.
        (limit < length bytes) × (S.left source.new ≡ Some (drop (limit + 1) bytes))) }
    ensures after_fault { IsErrOf result ReadAllError.ReadFault →
        WhereTold (S.left source.old) (λ bytes. LeavesRest limit bytes (S.left source.new)) }
    ensures after_refusal { OnErr result (WhereTold (S.left source.old) (λ bytes.
        LeavesRest (limit + 1) bytes (S.left source.new))) }

    // Where the source tells its bytes, counts no fault, and memory is not wanted.
    ensures fits { WhereTold (S.left source.old) (λ bytes. length bytes ≤ limit →
        IsOk result ⊎ IsErrOf result ReadAllError.Memory
        ⊎ HasRisen (S.faults source.old) (S.faults source.new)) }
    ensures exceeds { WhereTold (S.left source.old) (λ bytes. limit < length bytes →
        IsErrOf result ReadAllError.TooLong ⊎ IsErrOf result ReadAllError.Memory
        ⊎ HasRisen (S.faults source.old) (S.faults source.new)) }
{
    let mut bytes = Vec::new(alloc);
    let mut piece = [0u8; PIECE];
    'reading: while bytes.len() <= limit {
        let wanted = PIECE.min(limit + 1 - bytes.len());
        let given = read_more(source, &mut piece[..wanted], &mut bytes)?;
        if given == 0 {
            return Ok(List::from_vec(bytes));
        }
    }
    Err(ReadAllError::TooLong)
}

/// How many bytes a read asks for at most.
const PIECE: usize = 4096;

// One read by way of the piece, whose bytes go to the end of `bytes`; answers how many came.
fn read_more<S: Source>(
    source: &mut S,
    piece: &mut [u8],
    bytes: &mut Vec<u8>,
) -> Result<usize, ReadAllError>
    requires { 0 < length piece.old }
    ensures counts { S.faults source.old ≤ S.faults source.new }
    ensures read_fault { IsErrOf result ReadAllError.ReadFault →
        HasRisen (S.faults source.old) (S.faults source.new) }
    ensures not_too_long { result ≢ Err ReadAllError.TooLong }
    ensures grown { IfOk result (λ n.
        (n ≤ length piece.old) × (vec_len bytes.new ≡ vec_len bytes.old + n)) }
    ensures ok { IfOk result (λ n. WhereTold (S.left source.old) (λ left.
        AppendsFirst left (S.left source.new) bytes.old.items bytes.new.items n)) }
    ensures after_fault { IsErrOf result ReadAllError.ReadFault →
        WhereTold (S.left source.old) (λ left. S.left source.new ≡ Some left) }
    ensures after_refusal { OnErr result (WhereTold (S.left source.old) (λ left.
        LeavesRest (length piece.old) left (S.left source.new))) }
{
    let given = source.read(piece)?;
    bytes.extend_from_slice(&piece[..given])?;
    Ok(given)
}

impl From<Fault> for ReadAllError {
    ghost use Rattle.mir_edge.specs.declared.source.ReadAllError.TheVariants.{ReadFault};

    ghost from_gives = { λ _ error. error ≡ ReadFault };

    fn from(_fault: Fault) -> ReadAllError {
        ReadAllError::ReadFault
    }
}

impl From<AllocError> for ReadAllError {
    ghost use Rattle.mir_edge.specs.declared.source.ReadAllError.TheVariants.{Memory};

    ghost from_gives = { λ _ error. error ≡ Memory };

    fn from(_refused: AllocError) -> ReadAllError {
        ReadAllError::Memory
    }
}
