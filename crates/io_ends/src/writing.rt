// Writing all of a piece.

ghost use Rattle.std.specs.Prelude.{◌<◌, length, take, IfErr, OnOk};
ghost use Rattle.std.specs.Io.KnownBytes.{Appends};
ghost use Rattle.blob_base.specs.Faults.{CameFrom, KeepsEnd};

use crate::Sink;
use blob_base::IoFault;

/// A piece wasn't taken whole: the sink took its first `gone` bytes.
#[derive(Clone, Copy, Debug, PartialEq, Eq)]
pub struct PutFault {
    pub gone: usize,
    pub cause: IoFault,
}

/// Writes all of a piece.
pub fn put_all<K: Sink>(sink: &mut K, piece: &[u8]) -> Result<(), PutFault>
    ensures ok { OnOk result (Appends (K.taken sink.old) (K.taken sink.new) piece.now) }
    ensures gone { IfErr result (λ fault. fault.gone < length piece.now) }
    ensures front { IfErr result (λ fault. Appends (K.taken sink.old) (K.taken sink.new) (take fault.gone piece.now)) }
    ensures keeps { KeepsEnd K.faults K.frugal sink.old sink.new }
    ensures cause { IfErr result (λ fault. CameFrom fault.cause (K.faults sink.old) (K.faults sink.new) (K.frugal sink.old)) }
{
    let mut gone = 0;
    while gone < piece.len() {
        match sink.write(piece.split_at(gone).1) {
            Ok(count) => gone += count,
            Err(cause) => return Err(PutFault { gone, cause }),
        }
    }
    Ok(())
}
