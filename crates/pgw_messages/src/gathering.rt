//! Parameters while they are read.

ghost use Rattle.std.specs.Prelude.{◌≡◌, [], IfOk};
ghost use Rattle.pgw_messages.specs.Params.{with_value};

use crate::params::Params;
use pgw_frames::NoMemory;
use std::alloc::Global;
use std::collections::BTreeMap;
use std::marker::Model;

/// The parameters that were read so far, and of each name the place where it stands: so many names
/// are read in a time that grows little more than their number. Contracts see the parameters.
#[derive(Drop)]
pub(crate) struct Gathering<'a> {
    params: Params,
    places: BTreeMap<&'a str, usize>,
}

impl<'a> Model for Gathering<'a> {
    ghost use Rattle.std.specs.Prelude.{List};
    ghost use Rattle.pgw_messages.specs.declared.params.Pair.{Pair};
    ghost use Rattle.pgw_messages.specs.Places.{Points};

    ghost Value = { List Pair };

    ghost view = { λ g. g.params };

    ghost invariant = { λ g. Points g.places g.params };
}

impl<'a> Gathering<'a> {
    pub(crate) fn new(alloc: Global) -> Gathering<'a>
        ensures { result ≡ [] }
    {
        Gathering {
            params: Params::new(alloc),
            places: BTreeMap::new(alloc),
        }
    }

    /// With a further pair. A name that is there keeps its place and takes the value.
    pub(crate) fn with(self, name: &'a str, value: &str) -> Result<Gathering<'a>, NoMemory>
        ensures { IfOk result (λ g. g ≡ with_value name.now value.now self.entry) }
    {
        let Gathering {
            mut params,
            mut places,
        } = self;
        if let Some(place) = places.get(name).copied() {
            params.put_at(Some(place), name, value)?;
            return Ok(Gathering { params, places });
        }
        places.insert(name, params.len())?;
        params.put_at(None, name, value)?;
        Ok(Gathering { params, places })
    }

    pub(crate) fn into_params(self) -> Params
        ensures { result ≡ self.entry }
    {
        self.params
    }
}
