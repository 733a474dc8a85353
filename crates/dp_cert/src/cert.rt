//! Certificates and their versions.

ghost use Rattle.std.specs.Prelude.{◌≡◌, ◌==◌, IsTrue};
ghost use Rattle.std.specs.List.{list_all, list_any};
ghost use Rattle.dp_model.specs.Rows.{is_well_formed_row, have_groups};
ghost use Rattle.dp_cert.specs.Spelling.{is_row_of, version_for, certificate_of, number_of_version, raised};

use dp_model::Row;
use std::marker::Model;

/// The version of a certificate. In version 1 no register belongs to a sharing group.
#[derive(Clone, Copy)]
pub enum Version {
    One,
    Two,
}

impl Version {
    /// Its number.
    pub fn number(self) -> u8
        ensures { result ≡ number_of_version self }
    {
        match self {
            Version::One => 1,
            Version::Two => 2,
        }
    }

    /// Whether a certificate of this version may have the row.
    pub(crate) fn can_have(self, row: &Row) -> bool
        ensures { result ≡ is_row_of self row.now }
    {
        match self {
            Version::One => row.is_well_formed() && !row.has_groups(),
            Version::Two => row.is_well_formed(),
        }
    }
}

fn have_groups(rows: &[Row]) -> bool
    ensures { result ≡ list_any (λ row. have_groups row.facts) rows.now }
{
    rows.iter().any(|row| row.has_groups())
}

/// The version for these rows: 1 exactly if none has a group.
fn version_for(rows: &[Row]) -> Version
    ensures { result ≡ version_for rows.now }
{
    if have_groups(rows) {
        Version::Two
    } else {
        Version::One
    }
}

/// A certificate: a version, and a list of well-formed rows that say what is known before each instruction of a program.
#[derive(Drop)]
pub struct Cert {
    version: Version,
    rows: Vec<Row>,
}

impl Model for Cert {
    ghost use Rattle.std.specs.Prelude.{List, IsTrue};
    ghost use Rattle.std.specs.List.{list_all};
    ghost use Rattle.dp_cert.specs.Spelling.{Certificate, is_row_of};

    ghost Value = { Certificate };

    ghost view = { λ a. record { version = a.version; rows = a.rows.items } };

    ghost invariant = { λ a. IsTrue (list_all (is_row_of a.version) a.rows.items) };
}

impl Cert {
    /// Makes a certificate of these rows. Each must be well formed (`Row::is_well_formed`). It has version 1 exactly if no row has a
    /// group.
    #[tactic(auto, using(crate::proofs::Versions::rows_of_version))]
    pub fn new(rows: Vec<Row>) -> Cert
        requires { IsTrue (list_all is_well_formed_row rows.items) }
        ensures { result ≡ certificate_of rows.items }
    {
        let version = version_for(&rows);
        Cert { version, rows }
    }

    /// Makes a certificate of a version that may have each of the rows.
    pub(crate) fn of_version(version: Version, rows: Vec<Row>) -> Cert
        requires { IsTrue (list_all (is_row_of version) rows.items) }
        ensures rows { result.rows ≡ rows.items }
        ensures version { result.version ≡ version }
    {
        Cert { version, rows }
    }

    /// The version, 1 or 2.
    pub fn version(&self) -> u8
        ensures { result ≡ number_of_version self.now.version }
    {
        self.version.number()
    }

    /// The version.
    pub(crate) fn version_kind(&self) -> Version
        ensures { result ≡ self.now.version }
    {
        self.version
    }

    /// The same rows in version 2.
    #[tactic(auto, using(crate::proofs::Versions::raised_rows))]
    pub fn raise(self) -> Cert
        ensures { result ≡ raised self }
    {
        let Cert { rows, .. } = self;
        Cert {
            version: Version::Two,
            rows,
        }
    }

    /// The rows, one for each instruction, in the order of the instructions.
    #[tactic(auto, using(crate::proofs::Versions::rows_well_formed))]
    pub fn rows(&self) -> &[Row]
        ensures same { result.now ≡ self.now.rows }
        ensures well_formed { IsTrue (list_all is_well_formed_row result.now) }
    {
        self.rows.as_slice()
    }
}
