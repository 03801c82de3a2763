ghost use Rattle.std.specs.Prelude.{◌≡◌};
ghost use Rattle.cs_base.specs.Causes.{HasCause, AppendsPart};

use crate::failed::Failed;
use crate::sink::Sink;

/// Appends all the bytes. After `Failed` only a part at their front was appended.
#[tactic(auto, using(crate::proofs::Bytes::appends_none, crate::proofs::Bytes::write_more))]
pub fn write_whole<O: Sink>(sink: &mut O, bytes: &[u8]) -> Result<(), Failed>
    ensures appended { AppendsPart (O.written sink.old) (O.written sink.new) bytes.now result }
    ensures cause { HasCause (O.faults sink.old) (O.faults sink.new) result }
{
    let mut at = 0;
    while at < bytes.len() {
        match sink.write(&bytes[at..]) {
            Ok(count) => at += count,
            Err(Failed) => return Err(Failed),
        }
    }
    Ok(())
}
