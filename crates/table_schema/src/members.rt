//! Builds JSON dictionaries.
ghost use Rattle.std.specs.Prelude.{◌≡◌, [], ◌∷◌, ◌++◌, OnOk, OnErr};
ghost use Rattle.portal_base.specs.declared.json_value.Json.{Map, Text as text_value, Truth, Whole};

use portal_base::json_value::Json;
use portal_base::seq::Seq;
use portal_base::text::Text;
use std::alloc::{AllocError, Global};
use std::marker::Model;

/// The members of a JSON dictionary that is being built, in the order in which they were added. Contracts see the list
/// of keys and values. The caller must add the keys in ascending order.
#[derive(Drop)]
pub(crate) struct Members {
    alloc: Global,
    members: Seq<(Text, Json)>,
}

impl Model for Members {
    ghost use Rattle.std.specs.Prelude.{ℕ, List};
    ghost use Rattle.portal_base.specs.declared.json_value.Json.{Json};

    ghost Value = { List (List ℕ × Json) };

    ghost use Rattle.portal_base.specs.contracts.json_value.Json as json;
    ghost use Rattle.std.specs.Coded.{codes};

    ghost coded = { Prim.hlevel (codes, json.the_row.coded) };

    ghost view = { λ it. it.members };
}

impl Members {
    pub(crate) fn new(alloc: Global) -> Members
        ensures { result ≡ [] }
    {
        Members {
            alloc,
            members: Seq::new(alloc),
        }
    }

    /// Appends a member. If memory runs out, nothing is added.
    pub(crate) fn add(&mut self, key: &'static str, value: Json) -> Result<(), AllocError>
        ensures ok { OnOk result (self.new ≡ self.old ++ (key.now, value) ∷ []) }
        ensures err { OnErr result (self.new ≡ self.old) }
    {
        match self.members.push((Text::from_static(key), value)) {
            Ok(()) => Ok(()),
            Err(_refused) => Err(AllocError),
        }
    }

    /// Appends a member whose value is a text. If memory runs out, nothing is added.
    pub(crate) fn add_text(&mut self, key: &'static str, value: &str) -> Result<(), AllocError>
        ensures ok { OnOk result (self.new ≡ self.old ++ (key.now, text_value value.now) ∷ []) }
        ensures err { OnErr result (self.new ≡ self.old) }
    {
        let value = Text::from_str(self.alloc, value)?;
        self.add(key, Json::Text(value))
    }

    /// The dictionary of these members.
    pub(crate) fn into_json(self) -> Json
        ensures { result ≡ Map self }
    {
        let Members { members, .. } = self;
        Json::Map(members)
    }
}
