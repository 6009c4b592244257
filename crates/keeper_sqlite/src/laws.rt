//! A law of the keeper's table. The function has an empty body, and its contract is the law.
ghost use Rattle.std.specs.Prelude.{◌≡◌, true};
ghost use Rattle.keeper_sqlite.specs.Form.{defines_form};
ghost use Rattle.keeper_sqlite.specs.Statements.{make_text};

/// The statement that makes the table defines one of the keeper's form.
pub fn the_made_table_has_the_form()
    ensures { defines_form make_text ≡ true }
{}
