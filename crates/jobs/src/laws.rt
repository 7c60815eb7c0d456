ghost use Rattle.std.specs.Prelude.{◌≡◌, ℕ, ℤ, List};
ghost use Rattle.task_tree.specs.declared.tree.Program.{Program};
ghost use Rattle.task_syntax.specs.Grammar.{ReadsAsProgram};
ghost use Rattle.serial_meaning.specs.Places.{meaning};

/// A text has one outcome on an input, however it was read. Does nothing.
pub fn one_text_one_outcome()
    ensures { (text : List ℕ) (p q : Program) (input : List ℤ)
        → ReadsAsProgram text p
        → ReadsAsProgram text q
        → meaning p input ≡ meaning q input }
{}
