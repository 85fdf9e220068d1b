ghost use Rattle.std.specs.Prelude.{◌≡◌, IfOk};
ghost use Rattle.std.specs.HashSet.{contains};
ghost use Rattle.model_facts.specs.Facts.{inward_of, is_linked};
ghost use Rattle.model_facts.specs.inner.Tables.{KnowsSides, same_side_key};

use plain_values::Mem;
use propagation_links::Link;
use std::alloc::Global;
use std::collections::HashSet;
use std::marker::Model;

/// The sides into which links lead. Contracts see the links.
#[derive(Drop)]
pub(crate) struct LinkedSides<'m> {
    links: &'m [Link],
    sides: HashSet<(u32, u32, bool)>,
}

impl<'m> Model for LinkedSides<'m> {
    ghost use Rattle.std.specs.Prelude.{List};
    ghost use Rattle.std.specs.HashSet.{contains};
    ghost use Rattle.propagation_links.specs.declared.link.Link.{Link as Leads};
    ghost use Rattle.model_facts.specs.inner.Tables.{KnowsSides, same_side_key};

    ghost Value = { List Leads };

    ghost view = { λ l. l.links.now };

    ghost invariant = { λ l. KnowsSides l.links.now (contains same_side_key l.sides) };
}

impl<'m> LinkedSides<'m> {
    /// The sides into which these links lead.
    pub(crate) fn of(alloc: Global, links: &'m [Link]) -> Mem<LinkedSides<'m>>
        ensures { IfOk result (λ linked. linked ≡ links.now) }
    {
        Ok(LinkedSides {
            links,
            sides: sides_of(alloc, links)?,
        })
    }

    /// Whether a link leads into the inward side of a point.
    pub(crate) fn has(&self, component: u32, point: u32) -> bool
        ensures { result ≡ is_linked self.now (inward_of component point) }
    {
        self.sides.contains(&(component, point, false))
    }
}

/// Each side into which a link leads, once.
fn sides_of(alloc: Global, links: &[Link]) -> Mem<HashSet<(u32, u32, bool)>>
    ensures { IfOk result (λ sides. KnowsSides links.now (contains same_side_key sides)) }
{
    let mut sides = HashSet::new(alloc);
    for link in links {
        let to = link.to;
        sides.insert((to.component, to.point, to.outward))?;
    }
    Ok(sides)
}
