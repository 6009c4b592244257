//! The rules of a portal file.
ghost use Rattle.std.specs.Prelude.{◌≡◌};
ghost use Rattle.portal_file.specs.Rules.{rule_name};

use std::alloc::AllocError;
use std::fmt;
use thiserror::Error;

/// The rules for portal files. Each one is about the whole file.
#[derive(Clone, Copy, Debug, PartialEq, Eq)]
pub enum FileRule {
    /// It is TOML; `user` and `organization` are lists of tables, and their keys have values of their kinds.
    Toml,
    /// Each user has a name.
    UserName,
    /// No two users have the same name.
    RepeatedUser,
    /// Each token is 64 hexadecimal digits in lower case.
    Token,
    /// No two users have the same token.
    RepeatedToken,
    /// Each organization has a name.
    OrganizationName,
    /// No two organizations have the same name.
    RepeatedOrganization,
    /// Each role is `member`, `editor` or `admin`, and that of a user of the file.
    Role,
}

impl FileRule {
    /// The name of the rule in messages.
    pub fn name(self) -> &'static str
        ensures { result.now ≡ rule_name self }
    {
        match self {
            FileRule::Toml => "toml",
            FileRule::UserName => "user name",
            FileRule::RepeatedUser => "repeated user",
            FileRule::Token => "token",
            FileRule::RepeatedToken => "repeated token",
            FileRule::OrganizationName => "organization name",
            FileRule::RepeatedOrganization => "repeated organization",
            FileRule::Role => "role",
        }
    }
}

impl fmt::Display for FileRule {
    fn fmt<W: fmt::Write>(&self, f: &mut fmt::Formatter<W>) -> fmt::Result {
        f.write_str(self.name())
    }
}

/// Why bytes are no portal file. `OutOfMemory` says nothing about the bytes.
#[derive(Clone, Copy, Debug, PartialEq, Eq, Error)]
pub enum FileFault {
    /// They break this rule, and none before it.
    #[error("{0}")]
    Rule(FileRule),
    #[error("out of memory")]
    OutOfMemory,
}

impl From<AllocError> for FileFault {
    ghost use Rattle.std.specs.Prelude.{◌≡◌};
    ghost use Rattle.portal_file.specs.declared.rule.FileFault.TheVariants.{OutOfMemory};

    ghost from_gives = { λ _ fault. fault ≡ OutOfMemory };

    fn from(_refused: AllocError) -> FileFault {
        FileFault::OutOfMemory
    }
}

/// Why tables weren't read. `OutOfMemory` says nothing about the tables.
#[derive(Clone, Copy, Debug, PartialEq, Eq, Error)]
pub(crate) enum TableFault {
    /// A key has a value of another kind, or a name is absent.
    #[error("a table isn't as it should be")]
    Kind,
    #[error("out of memory")]
    OutOfMemory,
}

impl From<AllocError> for TableFault {
    ghost use Rattle.std.specs.Prelude.{◌≡◌};
    ghost use Rattle.portal_file.specs.declared.rule.TableFault.TheVariants.{OutOfMemory};

    ghost from_gives = { λ _ fault. fault ≡ OutOfMemory };

    fn from(_refused: AllocError) -> TableFault {
        TableFault::OutOfMemory
    }
}
