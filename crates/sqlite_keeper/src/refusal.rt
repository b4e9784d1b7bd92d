use sqlite::Error;
use std::fmt;

/// Why a call on rows failed.
#[derive(Clone, Copy, PartialEq, Eq)]
pub enum Refusal {
    /// The database has something else than one table of rows.
    OtherTables,
    /// No table of rows was opened before.
    NotOpened,
    /// What the database answered.
    Database(Error),
}

impl fmt::Display for Refusal {
    fn fmt<W: fmt::Write>(&self, f: &mut fmt::Formatter<W>) -> fmt::Result {
        match self {
            Refusal::OtherTables => f.write_str("a database that holds something else than rows"),
            Refusal::NotOpened => f.write_str("no rows were opened"),
            Refusal::Database(error) => write!(f, "{error}"),
        }
    }
}
