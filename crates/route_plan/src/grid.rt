//! The grid that the nodes stand in, and the links between their switches.
ghost use Rattle.std.specs.Prelude.{◌≡◌, ℕ, ◌*◌, ◌<◌, ◌≤◌, List, [], ◌∷◌};
ghost use Rattle.route_plan.specs.Grid.{row_count, after, before, along, partner};

use std::marker::Model;

/// The nodes in rows and columns. Contracts see how many nodes there are.
#[derive(Drop)]
pub struct Grid {
    nodes: u8,
    rows: u8,
    columns: u8,
}

impl Model for Grid {
    ghost use Rattle.std.specs.Prelude.{ℕ};
    ghost use Rattle.route_plan.specs.Sizes.{IsGrid};

    ghost Value = { ℕ };

    ghost view = { λ g. g.nodes };

    ghost invariant = { λ g. IsGrid g.nodes g.rows g.columns };
}

/// The greatest divisor of the number of nodes whose square is at most that number.
fn rows_of(nodes: u8) -> u8
    requires some { 1 ≤ nodes }
    requires few { nodes ≤ 16 }
    ensures { result ≡ row_count nodes }
{
    let mut rows = 1u8;
    'rows: for place in 0..nodes {
        let divisor = u16::from(place) + 1;
        if u16::from(nodes) % divisor == 0 && divisor * divisor <= u16::from(nodes) {
            rows = place + 1;
        }
    }
    rows
}

impl Grid {
    pub fn new(nodes: u8) -> Grid
        requires some { 1 ≤ nodes }
        requires few { nodes ≤ 16 }
        ensures { result ≡ nodes }
    {
        let rows = rows_of(nodes);
        Grid {
            nodes,
            rows,
            columns: nodes / rows,
        }
    }

    pub fn nodes(&self) -> u8
        ensures same { result ≡ self.now }
        ensures some { 1 ≤ self.now }
        ensures few { self.now ≤ 16 }
    {
        self.nodes
    }

    /// The switches that a switch is linked with: the next and the previous one of its ring, and its partner. In a ring
    /// of one node the first two are the switch itself, which isn't linked with itself.
    pub fn neighbours(&self, switch: u8) -> [u8; 3]
        requires { switch < 2 * self.now }
        ensures neighbours { result ≡ along after self.now switch ∷ along before self.now switch ∷ partner switch ∷ [] }
        ensures after_there { along after self.now switch < 2 * self.now }
        ensures before_there { along before self.now switch < 2 * self.now }
        ensures partner_there { partner switch < 2 * self.now }
    {
        let row = switch / 2 / self.columns;
        let column = switch / 2 % self.columns;
        if switch % 2 == 0 {
            let after = (column + 1) % self.columns;
            let before = (column + self.columns - 1) % self.columns;
            [
                2 * (row * self.columns + after),
                2 * (row * self.columns + before),
                switch + 1,
            ]
        } else {
            let after = (row + 1) % self.rows;
            let before = (row + self.rows - 1) % self.rows;
            [
                2 * (after * self.columns + column) + 1,
                2 * (before * self.columns + column) + 1,
                switch - 1,
            ]
        }
    }
}
