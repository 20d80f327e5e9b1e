//! Writing what a call ends with.

ghost use Rattle.std.specs.Prelude.{◌≡◌, ◌≢◌, ◌⊎◌, [], None, IfSome, IsNone, IsSome, IsSomeAnd, OnOk, OnErr, IsErrOf};
ghost use Rattle.std.specs.Io.KnownBytes.{Appends};
ghost use Rattle.std.specs.Option.{option_copied};
ghost use Rattle.call_answers.specs.Given.{told, GivesWhole, GivesPart, IsPut, IsPutInPart, TakesPart};
ghost use Rattle.mm_base.specs.Outside.{NoneFell, Rose};

use call_answers::Ending;
use mm_base::{Failed, ReplaceStop, Sink, Status, Store};

// Writes a text, unless it is empty.
fn put<S: Sink>(sink: &mut S, text: &[u8]) -> Result<(), Failed>
    ensures ok { OnOk result (Appends (S.told sink.old) (S.told sink.new) text.now) }
    ensures part { OnErr result (TakesPart (S.told sink.old) (S.told sink.new) text.now) }
    ensures failed { OnErr result (Rose (S.faults sink.old) (S.faults sink.new)) }
    ensures not_called { text.now ≡ [] → sink.new ≡ sink.old }
{
    if text.is_empty() {
        return Ok(());
    }
    sink.write(text)
}

// Writes a text to the output, or puts it under a name.
fn put_text<S: Store, O: Sink>(
    place: Option<&str>,
    text: &[u8],
    store: &mut S,
    out: &mut O,
) -> Result<(), ReplaceStop>
    ensures whole { OnOk result (IsPut (option_copied place.entry) text.now (told (S.told store.old) (O.told out.old) None) (told (S.told store.new) (O.told out.new) None)) }
    ensures part { IsErrOf result ReplaceStop.Failed → IsPutInPart (option_copied place.entry) text.now (told (S.told store.old) (O.told out.old) None) (told (S.told store.new) (O.told out.new) None) }
    ensures failed { IsErrOf result ReplaceStop.Failed → Rose (O.faults out.old) (O.faults out.new) ⊎ IsSomeAnd (option_copied place.entry) (λ name. Rose (S.replace_faults store.old name) (S.replace_faults store.new name)) }
    ensures memory { IsErrOf result ReplaceStop.Memory → (S.told store.new ≡ S.told store.old) × (out.new ≡ out.old) }
    ensures not_called { IsNone place.entry → store.new ≡ store.old }
    ensures no_output { IsSome place.entry → out.new ≡ out.old }
    ensures empty { text.now ≡ [] → out.new ≡ out.old }
    ensures read_faults { NoneFell (S.read_faults store.old) (S.read_faults store.new) }
{
    match place {
        Some(name) => store.replace(name, text),
        None => match put(out, text) {
            Ok(()) => Ok(()),
            Err(_) => Err(ReplaceStop::Failed),
        },
    }
}

/// Writes the texts of an ending, the first to the output or, where a place is given, under this name of the store. It answers
/// the ending's status, or that of a failure.
pub fn deliver<S: Store, O: Sink, L: Sink>(
    end: &Ending,
    place: Option<&str>,
    store: &mut S,
    out: &mut O,
    log: &mut L,
) -> Status
    requires not_write { end.now.status ≢ Status.Write }
    requires not_memory { end.now.status ≢ Status.Memory }
    ensures whole { result ≢ Status.Write → result ≢ Status.Memory → GivesWhole (option_copied place.entry) end.now result
        (told (S.told store.old) (O.told out.old) (L.told log.old)) (told (S.told store.new) (O.told out.new) (L.told log.new)) }
    ensures part { result ≡ Status.Write → GivesPart (option_copied place.entry) end.now
        (told (S.told store.old) (O.told out.old) (L.told log.old)) (told (S.told store.new) (O.told out.new) (L.told log.new)) }
    ensures cause { result ≡ Status.Write → Rose (O.faults out.old) (O.faults out.new) ⊎ (Rose (L.faults log.old) (L.faults log.new)
        ⊎ IsSomeAnd (option_copied place.entry) (λ name. Rose (S.replace_faults store.old name) (S.replace_faults store.new name))) }
    ensures memory { result ≡ Status.Memory → (S.told store.new ≡ S.told store.old) × (out.new ≡ out.old) × (log.new ≡ log.old) }
    ensures not_called { IsNone place.entry → store.new ≡ store.old }
    ensures no_output { IsSome place.entry → out.new ≡ out.old }
    ensures empty { end.now.out ≡ [] → out.new ≡ out.old }
    ensures read_faults { NoneFell (S.read_faults store.old) (S.read_faults store.new) }
{
    match put_text(place, end.out.as_slice(), store, out) {
        Err(ReplaceStop::Memory) => Status::Memory,
        Err(ReplaceStop::Failed) => Status::Write,
        Ok(()) => match put(log, end.log.as_slice()) {
            Ok(()) => end.status,
            Err(_) => Status::Write,
        },
    }
}
