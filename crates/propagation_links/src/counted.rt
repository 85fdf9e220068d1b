ghost use Rattle.std.specs.Prelude.{◌≡◌, ◌<◌, ◌^◌, ◌+◌};
ghost use Rattle.propagation_links.specs.Refused.{count_in};

use component_extension::Effective;

/// How many connections and user paths an effective classifier has.
pub(crate) fn count_in(effective: &Effective) -> usize
    ensures count { result ≡ count_in effective.now }
    ensures few { result < 2 ^ 33 }
{
    effective.members.connections.items().len() + effective.propagations.user_paths.items().len()
}
