//! What holds of the end of a build, for all options and tables. A caller learns a law by the call.
ghost use Rattle.std.specs.Prelude.{◌≡◌, ℕ, List, Some, Ok, map, Contains, slice_get};
ghost use Rattle.std.specs.Cmp.Lexicographic.{slice_cmp};
ghost use Rattle.std.specs.List.Sorted.{IsStrictlySortedBy};
ghost use Rattle.std.specs.Ordering.{nat_cmp};
ghost use Rattle.esb_base.specs.declared.flags.Loader.{Loader};
ghost use Rattle.esb_flags.specs.declared.options.Options.{Options};
ghost use Rattle.esb_ask.specs.declared.question.Question.{Question};
ghost use Rattle.esb_ask.specs.declared.answer.Answer.{Answer};
ghost use Rattle.esb_ask.specs.declared.outcome.OutFile.{OutFile};
ghost use Rattle.esb_ask.specs.Table.{answer_to};
ghost use Rattle.esb_scan.specs.Loaders.{loader_of};
ghost use Rattle.esb_scan.specs.Run.{entry_path, system_file};
ghost use Rattle.esb_link.specs.SerialLink.{IsComplete, out_path, out_file, out_files, outputs, serial_link, path_of};

/// The paths of a build's files ascend by their bytes.
pub fn outputs_ascend()
    ensures { (options : Options) (table : List (Question × Answer))
        → IsStrictlySortedBy (slice_cmp nat_cmp) (map path_of (out_files options table)) }
{}

/// In a build that ends with files each output is one of them, and each of them is an output. So outputs of one path have the same
/// bytes, since paths ascend.
pub fn files_are_the_outputs()
    ensures each { (options : Options) (table : List (Question × Answer)) (files : List OutFile) → serial_link options table ≡ Ok files
        → (output : List ℕ × List ℕ) → Contains (outputs options table) output → Contains files (out_file output) }
    ensures none_else { (options : Options) (table : List (Question × Answer)) (files : List OutFile) → serial_link options table ≡ Ok files
        → (file : OutFile) → Contains files file
        → (output : List ℕ × List ℕ) × Contains (outputs options table) output × (file ≡ out_file output) }
{}

/// In a build that ends with files each entry has its file. A file whose loader copies has the contents that were read.
pub fn each_entry_has_its_output()
    ensures one { (options : Options) (table : List (Question × Answer)) (files : List OutFile) → IsComplete options table
        → serial_link options table ≡ Ok files
        → (number : ℕ) (entry : List ℕ × List ℕ) → slice_get options.entries number ≡ Some entry
        → (contents : List ℕ) × Contains files (out_file (out_path options entry (system_file (entry_path options entry)), contents)) }
    ensures contents { (options : Options) (table : List (Question × Answer)) (files : List OutFile)
        → serial_link options table ≡ Ok files
        → (number : ℕ) (entry : List ℕ × List ℕ) (contents : List ℕ) → slice_get options.entries number ≡ Some entry
        → answer_to table (Question.Kind (entry_path options entry)) ≡ Some Answer.File
        → answer_to table (Question.Read (entry_path options entry)) ≡ Some (Answer.Bytes contents)
        → loader_of options.flags (entry_path options entry) ≡ Some Loader.Copy
        → Contains files (out_file (out_path options entry (system_file (entry_path options entry)), contents)) }
{}
