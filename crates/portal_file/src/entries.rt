//! The entries of a portal file's tables.
ghost use Rattle.std.specs.Prelude.{◌≡◌, ◌++◌, ◌∷◌, [], IfOk, OnOk};
ghost use Rattle.portal_file.specs.Tables.{joined_users, joined_orgs};

use org_roles::entry::{Org, User};
use portal_base::seq::Seq;
use portal_base::text::Text;
use std::alloc::AllocError;

/// Users, and tokens. A token is a user's name and the SHA-256 digest of the token in hexadecimal digits.
#[derive(Drop)]
pub struct Users {
    pub users: Seq<User>,
    pub tokens: Seq<(Text, Text)>,
}

/// The role of a user in an organization, all by name.
#[derive(Drop)]
pub struct NamedRole {
    pub org: Text,
    pub user: Text,
    pub role: Text,
}

/// Organizations, and roles in them.
#[derive(Drop)]
pub struct Orgs {
    pub orgs: Seq<Org>,
    pub roles: Seq<NamedRole>,
}

impl Users {
    /// These users, and then the others.
    pub(crate) fn joined(self, others: Users) -> Result<Users, AllocError>
        ensures { IfOk result (λ users. users ≡ joined_users self others) }
    {
        Ok(Users {
            users: appended(self.users, others.users)?,
            tokens: appended(self.tokens, others.tokens)?,
        })
    }
}

impl Orgs {
    /// These organizations with their roles, and then the others.
    pub(crate) fn joined(self, others: Orgs) -> Result<Orgs, AllocError>
        ensures { IfOk result (λ orgs. orgs ≡ joined_orgs self others) }
    {
        Ok(Orgs {
            orgs: appended(self.orgs, others.orgs)?,
            roles: appended(self.roles, others.roles)?,
        })
    }
}

/// The items, and then the others.
fn appended<T: Drop>(items: Seq<T>, others: Seq<T>) -> Result<Seq<T>, AllocError>
    ensures { IfOk result (λ all. all ≡ items ++ others) }
{
    let mut all = items.into_vec();
    let mut more = others.into_vec();
    all.append(&mut more)?;
    Ok(Seq::from(all))
}

/// Adds an item at the end.
pub(crate) fn push<T: Drop>(items: &mut Seq<T>, item: T) -> Result<(), AllocError>
    ensures { OnOk result (items.new ≡ items.old ++ item ∷ []) }
{
    match items.push(item) {
        Ok(()) => Ok(()),
        Err(_back) => Err(AllocError),
    }
}
