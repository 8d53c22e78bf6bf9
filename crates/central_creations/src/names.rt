//! The names of creations.
ghost use Rattle.std.specs.Prelude.{◌≡◌, []};
ghost use Rattle.mpi_law.specs.Registry.State.{Group_and_tag, Nth_dup, Nth_split, Group_on};
ghost use Rattle.mpi_law.specs.Registry.Creations.{same_name, is_split as is_split_name, is_under as is_under_name};
ghost use Rattle.central_creations.specs.Found.{counted_parent, split_of};

use mpi_base::{Members, StringTag};
use std::marker::Model;

/// What a name is made of. A parent is the communicator that the creation is under, by its place in the
/// registry.
#[derive(Drop)]
pub(crate) enum NameForm {
    /// An ordered group and a string tag.
    GroupAndTag {
        group: Members,
        tag: StringTag,
    },
    /// A duplicate, and how many calls of dup and split on the parent the caller had made before.
    NthDup {
        parent: u16,
        number: u64,
    },
    /// A split, and how many calls of dup and split on the parent the caller had made before.
    NthSplit {
        parent: u16,
        number: u64,
    },
    /// An ordered group under a communicator, and a tag.
    GroupOn {
        parent: u16,
        tag: u64,
        group: Members,
    },
}

/// The name of a creation (MPI 4.0, 7.4.2 and 6.14). A parent is the communicator that the creation is
/// under, by its place in the registry.
#[derive(Drop)]
pub struct CreationName {
    form: NameForm,
}

impl Model for CreationName {
    ghost use Rattle.mpi_law.specs.Registry.State.{CreationName as RegistryName};
    ghost use Rattle.central_creations.specs.Names.{name_of_form};

    ghost Value = { RegistryName };

    ghost view = { λ s. name_of_form s.form };
}

impl CreationName {
    /// The name of a creation from an ordered group and a string tag.
    pub fn group_and_tag(group: Members, tag: StringTag) -> CreationName
        ensures { result ≡ Group_and_tag group tag }
    {
        CreationName {
            form: NameForm::GroupAndTag { group, tag },
        }
    }

    /// The name of a duplicate of the parent, with how many calls of dup and split on it the caller had
    /// made before.
    pub fn nth_dup(parent: u16, number: u64) -> CreationName
        ensures { result ≡ Nth_dup parent number }
    {
        CreationName {
            form: NameForm::NthDup { parent, number },
        }
    }

    /// The name of a split of the parent, with how many calls of dup and split on it the caller had made
    /// before.
    pub fn nth_split(parent: u16, number: u64) -> CreationName
        ensures { result ≡ Nth_split parent number }
    {
        CreationName {
            form: NameForm::NthSplit { parent, number },
        }
    }

    /// The name of a creation from an ordered group under the parent, and a tag.
    pub fn group_on(parent: u16, tag: u64, group: Members) -> CreationName
        ensures { result ≡ Group_on parent tag group }
    {
        CreationName {
            form: NameForm::GroupOn { parent, tag, group },
        }
    }

    /// Whether the two names are the same.
    pub fn is_same(&self, other: &CreationName) -> bool
        ensures { result ≡ same_name self.now other.now }
    {
        match (&self.form, &other.form) {
            (
                NameForm::GroupAndTag { group, tag },
                NameForm::GroupAndTag {
                    group: other_group,
                    tag: other_tag,
                },
            ) => group == other_group && tag == other_tag,
            (
                NameForm::NthDup { parent, number },
                NameForm::NthDup {
                    parent: other_parent,
                    number: other_number,
                },
            ) => parent == other_parent && number == other_number,
            (
                NameForm::NthSplit { parent, number },
                NameForm::NthSplit {
                    parent: other_parent,
                    number: other_number,
                },
            ) => parent == other_parent && number == other_number,
            (
                NameForm::GroupOn { parent, tag, group },
                NameForm::GroupOn {
                    parent: other_parent,
                    tag: other_tag,
                    group: other_group,
                },
            ) => parent == other_parent && tag == other_tag && group == other_group,
            _ => false,
        }
    }

    /// The same name once more.
    pub fn copy(&self) -> CreationName
        ensures same { result ≡ self.now }
    {
        match &self.form {
            NameForm::GroupAndTag { group, tag } => {
                CreationName::group_and_tag(group.copy(), tag.copy())
            }
            NameForm::NthDup { parent, number } => CreationName::nth_dup(*parent, *number),
            NameForm::NthSplit { parent, number } => CreationName::nth_split(*parent, *number),
            NameForm::GroupOn { parent, tag, group } => {
                CreationName::group_on(*parent, *tag, group.copy())
            }
        }
    }

    /// Whether it is the name of no group and no tag.
    pub(crate) fn is_blank(&self) -> bool
        ensures { result ≡ same_name (Group_and_tag [] []) self.now }
    {
        match &self.form {
            NameForm::GroupAndTag { group, tag } => group.is_empty() && tag.bytes().is_empty(),
            _ => false,
        }
    }

    /// Whether it is the name of a split.
    pub(crate) fn is_split(&self) -> bool
        ensures { result ≡ is_split_name self.now }
    {
        matches!(&self.form, NameForm::NthSplit { .. })
    }

    /// The parent and the number of a split; None for another name.
    pub(crate) fn split(&self) -> Option<(u16, u64)>
        ensures { result ≡ split_of self.now }
    {
        match &self.form {
            NameForm::NthSplit { parent, number } => Some((*parent, *number)),
            _ => None,
        }
    }

    /// Whether it is the name of a creation under the communicator at a place.
    pub(crate) fn is_under(&self, place: usize) -> bool
        ensures { result ≡ is_under_name place self.now }
    {
        match &self.form {
            NameForm::GroupAndTag { .. } => false,
            NameForm::NthDup { parent, .. } => *parent as usize == place,
            NameForm::NthSplit { parent, .. } => *parent as usize == place,
            NameForm::GroupOn { parent, .. } => *parent as usize == place,
        }
    }

    /// The communicator of which it is the name of a dup or a split; None for another name.
    pub(crate) fn counted_parent(&self) -> Option<u16>
        ensures { result ≡ counted_parent self.now }
    {
        match &self.form {
            NameForm::NthDup { parent, .. } => Some(*parent),
            NameForm::NthSplit { parent, .. } => Some(*parent),
            _ => None,
        }
    }
}
