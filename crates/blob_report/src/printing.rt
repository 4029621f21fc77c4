// Printing to a sink.

ghost use Rattle.std.specs.Prelude.{OnOk, IfErr};
ghost use Rattle.blob_report.specs.Ends.{BrokeOff, HasPrinted};

use crate::status::print_status;
use blob_script::Status;
use io_ends::{Sink, put_all};

/// Prints a text.
pub fn print<K: Sink>(sink: &mut K, text: &[u8]) -> Result<(), Status>
    ensures ok { OnOk result (HasPrinted K.Sink text.now sink.old sink.new) }
    ensures err { IfErr result (λ status. BrokeOff K.Sink text.now status sink.old sink.new) }
{
    match put_all(sink, text) {
        Ok(()) => Ok(()),
        Err(fault) => Err(print_status(fault.cause)),
    }
}
