ghost use Rattle.std.specs.Prelude.{◌≡◌, ◌≤◌, ◌<◌, ◌++◌, [], ◌∷◌, ℕ, List, length, All, Contains};
ghost use Rattle.std.specs.List.{list_all, flat_map, position};
ghost use Rattle.gx_num.specs.Vector.{is_same};
ghost use Rattle.gx_shapes.specs.Tessellation.{facet_edges, is_joined as is_joined_among};
ghost use Rattle.gx_facets.specs.Facets.{EachCorner};
ghost use Rattle.gx_facets.specs.Edges.{number_of, numbered_edges, place_of, AreCounts, is_joined_by};

use gx_num::V3;
use gx_shapes::Facet;

/// Each edge joins two points, stands once, and its reverse stands; all corners are among these at most 32 vertices.
pub fn are_joined(facets: &[Facet], vertices: &[V3]) -> bool
    requires corners { All (EachCorner (Contains vertices.now)) facets.now }
    requires few { length vertices.now ≤ 32 }
    ensures { result ≡ list_all (is_joined_among (facet_edges facets.now)) (facet_edges facets.now) }
{
    EdgeCounts::of(facets, vertices).join_all(facets, vertices)
}

// How often each edge stands, by the numbers of its ends, counted up to 255.
#[derive(Drop)]
struct EdgeCounts {
    counts: [u8; 1024],
}

impl EdgeCounts {
    fn of(facets: &[Facet], vertices: &[V3]) -> EdgeCounts
        requires corners { All (EachCorner (Contains vertices.now)) facets.now }
        requires few { length vertices.now ≤ 32 }
        ensures { AreCounts (flat_map (numbered_edges vertices.now) facets.now) result.counts }
    {
        let mut counts = EdgeCounts { counts: [0; 1024] };
        for facet in facets {
            counts.add_facet(facet, vertices);
        }
        counts
    }

    fn add_facet(&mut self, facet: &Facet, vertices: &[V3])
        requires corners { EachCorner (Contains vertices.now) facet.now }
        requires few { length vertices.now ≤ 32 }
        ensures { (edges : List (ℕ × ℕ)) → AreCounts edges self.old.counts → AreCounts (edges ++ numbered_edges vertices.now facet.now) self.new.counts }
    {
        let a = number(facet.a, vertices);
        let b = number(facet.b, vertices);
        let c = number(facet.c, vertices);
        self.add(a, b);
        self.add(b, c);
        match facet.d {
            None => self.add(c, a),
            Some(d) => {
                let d = number(d, vertices);
                self.add(c, d);
                self.add(d, a);
            }
        }
    }

    fn add(&mut self, from: usize, to: usize)
        requires from { from < 32 }
        requires to { to < 32 }
        ensures { (edges : List (ℕ × ℕ)) → AreCounts edges self.old.counts → AreCounts (edges ++ (from, to) ∷ []) self.new.counts }
    {
        let place = place(from, to);
        self.counts[place] = self.counts[place].saturating_add(1);
    }

    fn join_all(&self, facets: &[Facet], vertices: &[V3]) -> bool
        requires corners { All (EachCorner (Contains vertices.now)) facets.now }
        requires few { length vertices.now ≤ 32 }
        ensures { result ≡ list_all (λ f. list_all (is_joined_by self.now.counts) (numbered_edges vertices.now f)) facets.now }
    {
        facets.iter().all(|facet| self.join(facet, vertices))
    }

    // Each edge of the facet is joined.
    fn join(&self, facet: &Facet, vertices: &[V3]) -> bool
        requires corners { EachCorner (Contains vertices.now) facet.now }
        requires few { length vertices.now ≤ 32 }
        ensures { result ≡ list_all (is_joined_by self.now.counts) (numbered_edges vertices.now facet.now) }
    {
        let a = number(facet.a, vertices);
        let b = number(facet.b, vertices);
        let c = number(facet.c, vertices);
        match facet.d {
            None => self.is_joined(a, b) && self.is_joined(b, c) && self.is_joined(c, a),
            Some(d) => {
                let d = number(d, vertices);
                self.is_joined(a, b)
                    && self.is_joined(b, c)
                    && self.is_joined(c, d)
                    && self.is_joined(d, a)
            }
        }
    }

    fn is_joined(&self, from: usize, to: usize) -> bool
        requires from { from < 32 }
        requires to { to < 32 }
        ensures { result ≡ is_joined_by self.now.counts (from, to) }
    {
        from != to && self.counts[place(from, to)] == 1 && self.counts[place(to, from)] > 0
    }
}

fn place(from: usize, to: usize) -> usize
    requires from { from < 32 }
    requires to { to < 32 }
    ensures value { result ≡ place_of (from, to) }
    ensures within { result < 1024 }
{
    32 * from + to
}

// The place of a point among the vertices.
fn number(p: V3, vertices: &[V3]) -> usize
    requires among { Contains vertices.now p }
    requires few { length vertices.now ≤ 32 }
    ensures value { result ≡ number_of vertices.now p }
    ensures within { result < 32 }
{
    first_place(p, vertices).unwrap()
}

fn first_place(p: V3, points: &[V3]) -> Option<usize>
    ensures { result ≡ position (is_same p) points.now }
{
    points.iter().position(|&point| p == point)
}
