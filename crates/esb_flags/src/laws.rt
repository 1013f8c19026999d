//! Laws of the commands. Each function's contract is the law, and its body does nothing.

ghost use Rattle.std.specs.Prelude.{◌≡◌, ℕ, false, Ok};
ghost use Rattle.esb_wire.specs.declared.value.Value.{Value};
ghost use Rattle.esb_flags.specs.declared.command.Command.{Command};
ghost use Rattle.esb_flags.specs.declared.command.Command.TheVariants as command;
ghost use Rattle.esb_flags.specs.declared.options.Options.{Options};
ghost use Rattle.esb_flags.specs.Accepted.{IsAccepted, HasFlags};
ghost use Rattle.esb_flags.specs.Command.{asked};
ghost use Rattle.esb_flags.specs.Named.{IsMap, SameFields};
ghost use Rattle.esb_flags.specs.Said.{Says, is_build};

/// A build that is accepted has at most 1,024 entries with different paths and an absolute working folder, asks no plug-in, and has a folder for its outputs.
pub fn accepted_builds()
    ensures { (request : Value) (key : ℕ) (options : Options) → asked request ≡ Ok (command.Build key options) → IsAccepted options }
{}

/// A request that is read as a command has that command's word and numbers, so no command is taken for another. A map that has
/// those of another command than `build` is read as it, whatever else it has.
pub fn said_commands()
    ensures said { (request : Value) (meant : Command) → asked request ≡ Ok meant → Says meant request }
    ensures read { (request : Value) (meant : Command) → IsMap request → Says meant request → is_build meant ≡ false → asked request ≡ Ok meant }
{}

/// Other fields of a request than those that it is read by are ignored, and so is the order of its fields.
pub fn same_fields()
    ensures { (one other : Value) → IsMap one → IsMap other → SameFields one other → asked one ≡ asked other }
{}

/// The flags of a build that is accepted are those that its words ask for.
pub fn accepted_flags()
    ensures { (request : Value) (key : ℕ) (options : Options) → asked request ≡ Ok (command.Build key options) → HasFlags request options }
{}
