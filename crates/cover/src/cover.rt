//! The cover of a node.
ghost use Rattle.std.specs.Prelude.{◌≡◌, ℕ, ◌+◌, ◌-◌, ◌^◌, ◌≤◌, List, ◌++◌, length, take, replicate, IfOk};
ghost use Rattle.network.specs.Limits.{minterms};
ghost use Rattle.cover.specs.Cubes.{literals, no_cube};
ghost use Rattle.cover.specs.Covers.{cover_of};
ghost use Rattle.cover.specs.Answers.{Covering, number_of, rising_cover, laid_out};
ghost use Rattle.cover.specs.Laws.{Tries, Lawful};

use crate::care::CareFunction;
use crate::cube::Cube;
use crate::gather::gather;
use crate::prune::prune;

/// Why there is no cover.
#[derive(Clone, Copy, PartialEq, Eq, Debug, Drop)]
pub enum CoverError {
    /// The list has fewer places than the node has minterms.
    Short = 17,
}

impl CoverError {
    /// The number of the cause.
    pub fn number(self) -> u8
        ensures { result ≡ number_of self }
    {
        self as u8
    }
}

/// How many literals the cubes have.
fn count_literals(cubes: &[Cube]) -> usize
    requires { length cubes.now ≤ minterms }
    ensures { result ≡ literals cubes.now }
{
    cubes.iter().map(|c| c.mask.count_ones() as usize).sum()
}

/// Writes the cover into places for as many cubes as there are minterms. How many cubes and how many
/// literals it has. A function of its own, since the laws that `cover` ensures are proved from this.
fn write(target: &CareFunction, places: &mut [Cube]) -> (usize, usize)
    requires { length places.old ≡ 2 ^ target.now.fanins.count }
    ensures cubes { result.0 ≡ length (rising_cover target.now) }
    ensures literals { result.1 ≡ literals (rising_cover target.now) }
    ensures places { places.new ≡ rising_cover target.now ++ replicate (length places.old - result.0) no_cube }
{
    let on = target.on();
    let gathered = gather(target.fanins, on, &target.off(), places);
    let stays = prune(on, &mut places[..gathered]);
    places[stays..].fill(Cube { mask: 0, values: 0 });
    (stays, count_literals(&places[..stays]))
}

/// Writes the cover into a list of at least as many places as there are minterms: the cubes first,
/// ascending, and then cleared places up to that many. Answers how many cubes there are, and how many
/// literals they have.
pub fn cover(target: &CareFunction, cubes: &mut [Cube]) -> Result<(usize, usize), CoverError>
    ensures covers { Covering target.now cubes.old result cubes.new }
    ensures lawful { IfOk result (λ p. Lawful target.now (take p.0 cubes.new)) }
    ensures every { (order : List ℕ) → Tries target.now.fanins.count order → Lawful target.now (cover_of target.now order) }
{
    let places = target.fanins.minterms() as usize;
    if cubes.len() < places {
        return Err(CoverError::Short);
    }
    Ok(write(target, &mut cubes[..places]))
}
