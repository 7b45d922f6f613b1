//! Path attributes that several routes share.

ghost use Rattle.std.specs.Prelude.{◌≡◌, IfOk};

use crate::attrs::Attrs;
use graft_edge::{Items, NoMemory, TryCopy};
use std::alloc::Global;
use std::marker::Model;
use std::ops::Deref;
use std::sync::Arc;

/// The path attributes of a route, which it may share with other routes, also of other threads. A copy
/// takes no memory of its own. To change them they are taken out, which makes a copy only if another
/// route has them too.
#[derive(Debug, Drop)]
pub struct SharedAttrs {
    shared: Arc<Attrs, Global>,
}

impl Model for SharedAttrs {
    ghost use Rattle.std.specs.Arc.{arc_value};
    ghost use Rattle.bgp_types.specs.declared.attrs.Attrs.{Attrs};
    ghost use Rattle.bgp_types.specs.contracts.attrs.Attrs as attrs;

    ghost Value = { Attrs };

    ghost coded = { attrs.the_row.coded };

    ghost view = { λ s. arc_value s.shared };
}

impl SharedAttrs {
    /// Returns attributes that can be shared. If memory runs out, they are lost.
    pub fn new(attrs: Attrs) -> Result<SharedAttrs, NoMemory>
        ensures { IfOk result (λ shared. shared ≡ attrs) }
    {
        let mut attrs = attrs;
        let path = attrs.path.into_vec();
        let alloc = *path.allocator();
        attrs.path = Items::from_vec(path);
        Ok(SharedAttrs {
            shared: Arc::new(alloc, attrs)?,
        })
    }

    /// Returns the attributes, to be changed. They are copied only if they are shared.
    pub fn into_attrs(self) -> Result<Attrs, NoMemory>
        ensures { IfOk result (λ attrs. attrs ≡ self) }
    {
        let SharedAttrs { shared } = self;
        match Arc::try_unwrap(shared) {
            Ok(attrs) => Ok(attrs),
            Err(shared) => {
                let attrs: &Attrs = &shared;
                attrs.copy()
            }
        }
    }
}

impl Deref for SharedAttrs {
    type Target = Attrs;

    ghost deref_gives = { λ shared attrs. attrs ≡ shared };

    fn deref(&self) -> &Attrs
        ensures { result.now ≡ self.now }
    {
        &self.shared
    }
}

impl PartialEq for SharedAttrs {
    ghost use Rattle.bgp_types.specs.contracts.attrs.AttrsPartialEq.TheImpl as attrs_eq;
    ghost use Rattle.bgp_types.specs.contracts.attrs.AttrsPartialEq.TheImpl.Laws as attrs_laws;

    ghost eq = { attrs_eq.eq-value.it };

    ghost laws = { attrs_laws.laws-law };

    fn eq(&self, other: &SharedAttrs) -> bool {
        **self == **other
    }
}

impl Eq for SharedAttrs {
    ghost use Rattle.bgp_types.specs.contracts.attrs.AttrsEq.TheImpl.Laws as attrs_laws;

    ghost laws = { attrs_laws.laws-law };
}

impl TryCopy for SharedAttrs {
    fn copy(&self) -> Result<SharedAttrs, NoMemory> {
        Ok(SharedAttrs {
            shared: Arc::try_clone(&self.shared)?,
        })
    }
}
