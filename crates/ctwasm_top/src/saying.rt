//! What commands say is written.
ghost use Rattle.std.specs.Prelude.{◌≡◌, ◌≢◌, Err, IfErr, IsOk};
ghost use Rattle.ctw_io.specs.Files.{Files};
ghost use Rattle.ctw_io.specs.Faults.{Rose};
ghost use Rattle.ctw_inputs.specs.declared.said.Status.TheVariants.{Done, Usage, ReadFault, WriteFault, SaveFault};
ghost use Rattle.ctw_inputs.specs.declared.said.Stop.TheVariants as stop;
ghost use Rattle.ctw_inputs.specs.Outcome.{Outcome, ends};
ghost use Rattle.ctw_inputs.specs.Settling.{IsRefusal, SaysSo};
ghost use Rattle.ctwasm_top.specs.Headline.{Did, IsAnswer, WroteNothing, SaysNothing};

use ctw_inputs::{Said, Status, Stop};
use ctw_io::{Fault, Sink, send};

/// Writes a whole text, and answers its status, or the fault of writing.
pub fn say<K: Sink>(out: &mut K, text: &[u8], status: Status) -> Status
    requires { IsAnswer status }
    ensures did { (files : Files) → Did result (ends status text.now) files files (K.taken out.old) (K.taken out.new) }
    ensures usage { result ≡ Usage → status ≡ Usage }
    ensures done { result ≡ Done → status ≡ Done }
    ensures write { result ≡ WriteFault → Rose (K.faults out.old) (K.faults out.new) }
    ensures quiet { (result ≢ ReadFault) × (result ≢ SaveFault) }
{
    match send(out, text) {
        Ok(()) => status,
        Err(Fault::Failed) => Status::WriteFault,
        Err(Fault::NoMemory) => Status::NoMemory,
    }
}

/// Writes all that a command says, or answers why it stops.
pub fn settle<K: Sink>(out: &mut K, said: Result<Said, Stop>) -> Status
    ensures did { (files : Files) (o : Outcome) → SaysSo said o
        → Did result o files files (K.taken out.old) (K.taken out.new) }
    ensures read { result ≡ ReadFault → (said ≡ Err stop.ReadFault) × (K.taken out.new ≡ K.taken out.old) }
    ensures write { result ≡ WriteFault → Rose (K.faults out.old) (K.faults out.new) }
    ensures quiet { (result ≢ SaveFault) × (result ≢ Usage) }
    ensures refuses { result ≡ Done → IfErr said IsRefusal → IsOk said }
    ensures want { SaysNothing said → WroteNothing result (K.taken out.old) (K.taken out.new) }
{
    match said {
        Ok(said) | Err(Stop::Says(said)) => say(out, said.text(), said.status()),
        Err(Stop::ReadFault) => Status::ReadFault,
        Err(Stop::NoMemory) => Status::NoMemory,
    }
}
