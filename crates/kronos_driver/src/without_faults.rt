//! The program over a source and a sink that never fail.

ghost use Rattle.std.specs.Prelude.{◌≡◌, ◌≢◌, ◌⊎◌, ◌≤◌, ℕ, length, map};
ghost use Rattle.std.specs.Rc.{rc_str_bytes};
ghost use Rattle.script_lang.specs.declared.script.Script.{Script as ScriptRead};
ghost use Rattle.script_lang.specs.Number.{IsFromOneTo};
ghost use Rattle.script_lang.specs.Script.{Parses};
ghost use Rattle.kronos_runs.specs.declared.exit.Exit.{Exit as ExitOf};
ghost use Rattle.kronos_runs.specs.Outside.{input_limit};
ghost use Rattle.kronos_driver.specs.Ends.{AskForScript, AskForLoad, AskForImport, IsImportEnd};

use crate::script::kronos_script;
use kr_text::{NoFaultSink, NoFaultSource};
use kronos_runs::Exit;
use std::alloc::Global;
use std::rc::RcStr;
use std::thread::Threads;

/// Runs the program over a source and a sink that never fail: no fault is answered; a script of at most 1,048,576 bytes,
/// and a load, end in `Done` or `NoMemory`; and an import of at most so many bytes as its log says, or in `NoMemory`.
pub fn exit_without_faults<R: Threads + Sync>(
    rt: &R,
    alloc: Global,
    words: &[RcStr],
    source: &mut NoFaultSource,
    sink: &mut NoFaultSink,
) -> Exit
    ensures read { result ≢ Exit.ReadFault }
    ensures write { result ≢ Exit.WriteFault }
    ensures script { AskForScript (map rc_str_bytes words.now) → length source.old ≤ input_limit
        → (script : ScriptRead) → Parses source.old script → (result ≡ Exit.Done) ⊎ (result ≡ Exit.NoMemory) }
    ensures load { (rounds : ℕ) → AskForLoad rounds (map rc_str_bytes words.now)
        → (result ≡ Exit.Done) ⊎ (result ≡ Exit.NoMemory) }
    ensures log { AskForImport (map rc_str_bytes words.now) → length source.old ≤ input_limit
        → (due : ExitOf) → IsImportEnd source.old due → (result ≡ due) ⊎ (result ≡ Exit.NoMemory) }
{
    kronos_script(rt, alloc, words, source, sink)
}
