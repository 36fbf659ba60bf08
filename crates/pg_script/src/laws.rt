//! Laws about what scripts mean, each the contract of a function that does nothing.
ghost use Rattle.std.specs.Prelude.{◌≡◌, ℕ, List};
ghost use Rattle.pg_script.specs.declared.fault.ScriptKind.{ScriptKind};
ghost use Rattle.pg_script.specs.declared.script.Script.{Script};
ghost use Rattle.pg_script.specs.Script.{IsScript, IsScriptFault};
ghost use Rattle.pg_script.specs.Whole.{ScriptsAreWhole, ScriptsWaitEarlier};

/// The law that an input has one answer: it is at most one script, or has at most one fault, which is a line and a kind,
/// and never both.
pub fn one_answer()
    ensures one_script { (bytes : List ℕ) (s t : Script) → IsScript bytes s → IsScript bytes t → s ≡ t }
    ensures no_fault { (bytes : List ℕ) (s : Script) (line : ℕ) (kind : ScriptKind) → IsScript bytes s → IsScriptFault bytes line kind → ⊥ }
    ensures one_fault { (bytes : List ℕ) (l m : ℕ) (j k : ScriptKind) → IsScriptFault bytes l j → IsScriptFault bytes m k → (l ≡ m) × (j ≡ k) }
{}

/// The law that in every script each statement is a part of the text, which is a text itself, each turn of the order is a
/// session's, and no section has more than 100,000 items.
pub fn scripts_are_whole()
    ensures { ScriptsAreWhole }
{}

/// The law that in every script each AFTER waits for an earlier session, and for one of its items.
pub fn waits_are_earlier()
    ensures { ScriptsWaitEarlier }
{}
