// What a map holds.
ghost use Rattle.std.specs.Prelude.{◌≡◌, ℕ, ◌<◌, ◌≤◌, true, [], ◌==◌};
ghost use Rattle.std.specs.List.{find};
ghost use Rattle.std.specs.Option.{option_map};
ghost use Rattle.rows.specs.Rows.{allowed};
ghost use Rattle.spf.specs.Maps.{Node, Sound};
ghost use Rattle.spf.specs.Model.{map_of};
ghost use Rattle.spf.specs.Reading.{lines_from, shown_figure};
ghost use Rattle.spf.specs.Rows.{figure_to};

use crate::map::Map;
use rows::places::place;
use wire::lines::Line;

// The figure of the line to a node among some lines.
fn figure_to(node: u8, lines: &[Line]) -> Option<u16>
    ensures { result ≡ option_map (λ x. x.figure) (find (λ x. x.neighbour == node) lines.now) }
{
    lines
        .iter()
        .find(|line| line.neighbour == node)
        .map(|line| line.figure)
}

impl Map {
    // How many nodes there are, 1 to 64.
    pub fn count(&self) -> u8
        ensures value { result ≡ (map_of self.now).count }
        ensures range { (1 ≤ result) × (result ≤ 64) }
    {
        self.count
    }

    // The lines that leave a node; none for a number that is no node's.
    pub fn lines_from(&self, node: u8) -> &[Line]
        ensures value { result.now ≡ lines_from self.now.rows node }
        ensures figures { (v : ℕ) → (map_of self.now).figure node v ≡ figure_to v result.now }
        ensures law { Node (map_of self.now) node → allowed (map_of self.now).count node 0 result.now ≡ true }
        ensures none { (map_of self.now).count < node → result.now ≡ [] }
    {
        // No `map_or`, which would take `&[]` for an array.
        let Some(row) = self.rows.get(place(node)) else {
            return &[];
        };
        row.lines()
    }

    // The figure of the line from one node to another; none where there is no line.
    pub fn figure(&self, from: u8, to: u8) -> Option<u16>
        ensures { result ≡ shown_figure ((map_of self.now).figure from to) }
    {
        figure_to(to, self.lines_from(from))
    }

    // A map is sound: at most 64 nodes, lines between its nodes only, and no figure above the largest.
    pub fn sound(&self)
        ensures { Sound (map_of self.now) }
    {}
}
