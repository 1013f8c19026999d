//! The definitions of what is handed in.

/// What the functions that are handed in give within a number of levels, by definitions that are known only where all parsers
/// come together.
pub trait StatementReaders {
    ghost use Rattle.std.specs.Prelude.{ℕ};
    ghost use Rattle.esb_reader.specs.Places.{Text};
    ghost use Rattle.esb_statement_laws.specs.Handed.{Handed};

    ghost handed: { Text → ℕ → Handed };
}
