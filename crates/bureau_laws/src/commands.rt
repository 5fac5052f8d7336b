//! The law of the commands of scripts.

ghost use Rattle.std.specs.Prelude.{◌≡◌, ◌≢◌, ℕ, List};
ghost use Rattle.office.specs.declared.commands.Command.{Command};
ghost use Rattle.scripts.specs.{
  Scripts.{IsScriptOf, IsFaultOf},
  declared.faults.ScriptFault.{ScriptFault},
};
ghost use Rattle.bureau_laws.specs.Same.{AreSameCommands};

/// The law of scripts: bytes are a script of one list of commands, or have one fault, and not both.
/// The fault is that they are too many, or the number of their first bad line. Want of memory is
/// a fault of any bytes, and stands apart.
pub fn one_script()
    ensures same { (bytes : List ℕ) (one other : List Command) → IsScriptOf bytes one →
        IsScriptOf bytes other → AreSameCommands one other }
    ensures one_fault { (bytes : List ℕ) (one other : ScriptFault) →
        IsFaultOf bytes one → IsFaultOf bytes other →
        one ≢ ScriptFault.NoMemory → other ≢ ScriptFault.NoMemory → one ≡ other }
    ensures not_both { (bytes : List ℕ) (commands : List Command) (fault : ScriptFault) →
        IsScriptOf bytes commands → IsFaultOf bytes fault → fault ≡ ScriptFault.NoMemory }
    ensures not_neither { (bytes : List ℕ) →
        ((commands : List Command) → ¬ IsScriptOf bytes commands) →
        ((fault : ScriptFault) → IsFaultOf bytes fault → fault ≡ ScriptFault.NoMemory) → ⊥ }
{}
