//! The built-in properties.

ghost use Rattle.std.specs.Prelude.{◌≡◌};
ghost use Rattle.moo_world.specs.{Objects.{same_text, folded}, BuiltIns.{field_name, built_in}};

use moo_value::MooStr;

/// The most bytes in the name of a property.
pub const MAX_NAME: usize = 255;

/// The built-in properties, which each object has.
#[derive(Clone, Copy, PartialEq, Eq)]
pub enum BuiltIn {
    Name,
    Owner,
    Location,
    Contents,
    Programmer,
    Wizard,
    R,
    W,
    F,
}

/// Every built-in property.
const ALL: [BuiltIn; 9] = [
    BuiltIn::Name,
    BuiltIn::Owner,
    BuiltIn::Location,
    BuiltIn::Contents,
    BuiltIn::Programmer,
    BuiltIn::Wizard,
    BuiltIn::R,
    BuiltIn::W,
    BuiltIn::F,
];

impl BuiltIn {
    /// The name of the property, in lower case.
    pub fn name(self) -> &'static [u8]
        ensures { result.now ≡ field_name self }
    {
        match self {
            BuiltIn::Name => b"name",
            BuiltIn::Owner => b"owner",
            BuiltIn::Location => b"location",
            BuiltIn::Contents => b"contents",
            BuiltIn::Programmer => b"programmer",
            BuiltIn::Wizard => b"wizard",
            BuiltIn::R => b"r",
            BuiltIn::W => b"w",
            BuiltIn::F => b"f",
        }
    }

    /// Whether it is the built-in property of a name, in any case.
    #[tactic(auto, unfolding(crate::specs::Objects::same_text, crate::specs::Objects::folded))]
    fn is_named(self, name: &MooStr) -> bool
        ensures { result ≡ same_text (folded name.now) (field_name self) }
    {
        name.bytes().eq_ignore_ascii_case(self.name())
    }

    /// The built-in property of a name, in any case; `None` if no property of that name is built in.
    ///
    /// LambdaMOO Programmer's Manual, 'Properties on Objects' in the chapter on the database.
    pub fn of_name(name: &MooStr) -> Option<BuiltIn>
        ensures { result ≡ built_in name.now }
    {
        ALL.iter().copied().find(|field| field.is_named(name))
    }
}
