//! The default portal, with which a run begins where no portal file is named: five users with their tokens, and one
//! organization.
ghost use Rattle.std.specs.Prelude.{◌≡◌, [], ◌∷◌, ◌++◌, codes, pos, IfOk};
ghost use Rattle.portal_links.specs.Tokens.{digest_of};
ghost use Rattle.portal_serve.specs.Defaults.{a_user, city_role, default_users, default_org, default_roles};
ghost use Rattle.portal_serve.specs.Defaults.{default_opening, default_state};
ghost use Rattle.portal_serve.specs.Defaults.{default_digests};

use org_roles::entry::{Membership, Org, User};
use org_roles::role::Role;
use portal_base::moment::Moment;
use portal_base::seq::Seq;
use portal_base::text::Text;
use portal_core::portal::{Opening, Portal};
use portal_keeper::memory::MemoryKeeper;
use portal_links::tokens::{Tokens, digest_of};
use std::alloc::{AllocError, Global};

fn user(alloc: Global, name: &str, sysadmin: bool) -> Result<User, AllocError>
    ensures { IfOk result (λ user. user ≡ a_user name.now sysadmin) }
{
    let name = Text::from_str(alloc, name)?;
    Ok(User { name, sysadmin })
}

fn users(alloc: Global) -> Result<Seq<User>, AllocError>
    ensures { IfOk result (λ users. users ≡ default_users) }
{
    let mut users = Vec::with_capacity(alloc, 5)?;
    users.push(user(alloc, "ann", false)?)?;
    users.push(user(alloc, "bob", false)?)?;
    users.push(user(alloc, "cyn", false)?)?;
    users.push(user(alloc, "dan", false)?)?;
    users.push(user(alloc, "root", true)?)?;
    Ok(Seq::from(users))
}

fn start_of_1970() -> Moment
    ensures { result ≡ pos 0 }
{
    Moment::from_seconds(0).unwrap()
}

fn orgs(alloc: Global) -> Result<Seq<Org>, AllocError>
    ensures { IfOk result (λ orgs. orgs ≡ default_org ∷ []) }
{
    let mut orgs = Vec::with_capacity(alloc, 1)?;
    orgs.push(Org {
        name: Text::from_str(alloc, "city")?,
        title: Text::from_str(alloc, "City")?,
        description: Text::new(alloc),
        created: start_of_1970(),
    })?;
    Ok(Seq::from(orgs))
}

fn role(alloc: Global, user: &str, role: Role) -> Result<Membership, AllocError>
    ensures { IfOk result (λ membership. membership ≡ city_role user.now role) }
{
    let org = Text::from_str(alloc, "city")?;
    let user = Text::from_str(alloc, user)?;
    Ok(Membership { org, user, role })
}

fn roles(alloc: Global) -> Result<Seq<Membership>, AllocError>
    ensures { IfOk result (λ roles. roles ≡ default_roles) }
{
    let mut roles = Vec::with_capacity(alloc, 3)?;
    roles.push(role(alloc, "ann", Role::Editor)?)?;
    roles.push(role(alloc, "bob", Role::Member)?)?;
    roles.push(role(alloc, "cyn", Role::Admin)?)?;
    Ok(Seq::from(roles))
}

/// The opening: users `root` (a sysadmin), `ann`, `bob`, `cyn` and `dan`, the organization `city`, and in it ann as
/// editor, bob as member and cyn as admin.
pub fn default_opening(alloc: Global) -> Result<Opening, AllocError>
    ensures { IfOk result
        (λ opening. opening ≡ default_opening) }
{
    Ok(Opening {
        users: users(alloc)?,
        orgs: orgs(alloc)?,
        roles: roles(alloc)?,
    })
}

/// A keeper in memory without rows, which never fails.
fn empty_keeper(alloc: Global) -> MemoryKeeper
    ensures { result.rows ≡ [] }
{
    MemoryKeeper::new(alloc, Seq::new(alloc), Seq::new(alloc))
}

/// The portal of that opening, over a keeper in memory.
pub fn default_portal(alloc: Global) -> Result<Portal<MemoryKeeper>, AllocError>
    ensures { IfOk result (λ portal. portal.state ≡ default_state) }
{
    let opening = default_opening(alloc)?;
    match Portal::open(alloc, empty_keeper(alloc), &opening) {
        Ok(portal) => Ok(portal),
        Err(_fault) => Err(AllocError),
    }
}

/// A user of the default portal with the digest of its token, which is `token-` and the name.
fn default_digest(alloc: Global, name: &str) -> Result<(Text, Text), AllocError>
    ensures { IfOk result (λ pair. pair ≡ (name.now, digest_of (codes "token-" ++ name.now))) }
{
    let token = format!(in alloc; "token-{name}")?;
    let digest = digest_of(alloc, token.as_str())?;
    let user = Text::from_str(alloc, name)?;
    Ok((user, Text::from(digest)))
}

/// The tokens of the default portal's users.
pub fn default_tokens(alloc: Global) -> Result<Tokens, AllocError>
    ensures { IfOk result (λ tokens. tokens ≡ default_digests) }
{
    let mut pairs = Vec::with_capacity(alloc, 5)?;
    pairs.push(default_digest(alloc, "ann")?)?;
    pairs.push(default_digest(alloc, "bob")?)?;
    pairs.push(default_digest(alloc, "cyn")?)?;
    pairs.push(default_digest(alloc, "dan")?)?;
    pairs.push(default_digest(alloc, "root")?)?;
    Ok(Tokens::new(Seq::from(pairs)))
}
