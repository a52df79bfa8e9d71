//! The paths of a virtual link as the description gives them. They own their names, so whoever reads them needs no reader of TOML.
ghost use Rattle.std.specs.Prelude.{◌≡◌, ◌<◌, true, All, IfOk, Some, is_some, [], length, slice_index_or};
ghost use Rattle.std.specs.List.{AllZip};
ghost use Rattle.toml.specs.Data.{as_str};
ghost use Rattle.toml.specs.View.{view};
ghost use Rattle.network_rows.specs.Values.{as_list, as_paths};

use crate::read_value::name_of_value;
use row_types::Name;
use std::alloc::{AllocError, Global};
use std::marker::Model;
use toml::Value;

/// A path: the names of the nodes that it goes through, the source first.
///
/// Clauses see it as their list, each name as its bytes.
pub struct Path {
    names: Vec<Name>,
}

impl Model for Path {
    ghost use Rattle.std.specs.Prelude.{ℕ, List};

    ghost Value = { List (List ℕ) };

    ghost view = { λ path. path.names.items };
}

impl Drop for Path {
    fn drop(self) {
        let Self { names: _ } = self;
    }
}

impl Path {
    /// Returns the number of names.
    pub fn len(&self) -> usize
        ensures { result ≡ length self.now }
    {
        self.names.len()
    }

    /// Returns the name at a place, or the empty text behind the last name.
    pub fn name(&self, place: usize) -> &str
        ensures { result.now ≡ slice_index_or self.now place [] }
    {
        match self.names.get(place) {
            Some(name) => name.as_str(),
            None => "",
        }
    }
}

/// The paths of a virtual link on one network.
///
/// Clauses see them as their list.
pub struct Paths {
    paths: Vec<Path>,
}

impl Model for Paths {
    ghost use Rattle.std.specs.Prelude.{ℕ, List};

    ghost Value = { List (List (List ℕ)) };

    ghost view = { λ paths. paths.paths.items };
}

impl Drop for Paths {
    fn drop(self) {
        let Self { paths: _ } = self;
    }
}

impl Paths {
    /// Makes the paths of a value, which is a list of paths. The texts are moved, and not copied.
    pub(crate) fn from_value(alloc: Global, value: Value) -> Result<Self, AllocError>
        requires { is_some (as_paths (view value)) ≡ true }
        ensures { IfOk result (λ paths. as_paths (view value) ≡ Some paths) }
    {
        match value {
            Value::Array(values) => Ok(Paths {
                paths: paths_of_values(alloc, values)?,
            }),
            _ => unreachable!(),
        }
    }

    /// Returns the number of paths.
    pub fn len(&self) -> usize
        ensures { result ≡ length self.now }
    {
        self.paths.len()
    }

    /// Returns the path at a place.
    pub fn path(&self, place: usize) -> &Path
        requires { place < length self.now }
        ensures { result.now ≡ slice_index_or self.now place [] }
    {
        &self.paths[place]
    }
}

// Makes the paths of these values.
#[tactic(auto, using(std::proofs::lemmas::Grind::common_steps, std::proofs::lemmas::Slice::Zip::all_zipped_more))]
fn paths_of_values(alloc: Global, values: Vec<Value>) -> Result<Vec<Path>, AllocError>
    requires { All (λ v. is_some (as_list as_str (view v)) ≡ true) values.items }
    ensures { IfOk result (λ paths. AllZip (λ v path. as_list as_str (view v) ≡ Some path) values.items paths.items) }
{
    let mut paths = Vec::with_capacity(alloc, values.len())?;
    for value in values {
        let path = path_of_value(alloc, value)?;
        paths.push(path)?;
    }
    Ok(paths)
}

// Makes the path of a value, which is a list of texts.
fn path_of_value(alloc: Global, value: Value) -> Result<Path, AllocError>
    requires { is_some (as_list as_str (view value)) ≡ true }
    ensures { IfOk result (λ path. as_list as_str (view value) ≡ Some path) }
{
    match value {
        Value::Array(values) => Ok(Path {
            names: names_of_values(alloc, values)?,
        }),
        _ => unreachable!(),
    }
}

// Makes the names of these values.
#[tactic(auto, using(std::proofs::lemmas::Grind::common_steps, std::proofs::lemmas::Slice::Zip::all_zipped_more))]
fn names_of_values(alloc: Global, values: Vec<Value>) -> Result<Vec<Name>, AllocError>
    requires { All (λ v. is_some (as_str (view v)) ≡ true) values.items }
    ensures { IfOk result (λ names. AllZip (λ v name. as_str (view v) ≡ Some name) values.items names.items) }
{
    let mut names = Vec::with_capacity(alloc, values.len())?;
    for value in values {
        names.push(name_of_value(value))?;
    }
    Ok(names)
}
