// Where each area of the work slice stands, by its slots and points of capacity; the mesh's own areas come first.
ghost use Rattle.std.specs.Prelude.{◌≡◌};
ghost use Rattle.cells.specs.Layout.{Sizes, notes_at, fronts_at, boxes_at, even_at, mesh_end, marks_at, list_at, refused_at, front_u_at, front_v_at, front_links_at, front_used_at, order_at, starts_at, done_at, tried_at, heads_at, near_at, far_at, stack_at};

// Corners of a slot: corner k of slot i has the code CORNERS * i + k,
// and its node stands behind the kinds at that place.
pub const CORNERS: usize = 4;

// Words a slot before the rings of corners: the kind and the nodes.
pub const BEFORE: usize = 5;

// Records of refused edges a slot.
pub const RECORDS: usize = 3;

// Slots and points of capacity, which say where each area of the work slice stands.
#[derive(Clone, Copy)]
pub struct Layout {
    pub slots: usize,
    pub points: usize,
    // No offset is a large number.
    ghost sizes: { Sizes slots points },
}

impl Layout {
    // Where a note for each point stands: what is known of its front edges and of its neighbours.
    pub fn notes_at(self) -> usize
        ensures { result ≡ notes_at self.slots self.points }
    {
        13 * self.slots + 2 * self.points
    }

    // Where two other ends of front edges stand for each point whose number is below that of the slots.
    pub fn fronts_at(self) -> usize
        ensures { result ≡ fronts_at self.slots self.points }
    {
        13 * self.slots + 3 * self.points
    }

    // Where four nodes stand for each point below the number of slots that bound it and its neighbours: left, right, below, above.
    pub fn boxes_at(self) -> usize
        ensures { result ≡ boxes_at self.slots self.points }
    {
        15 * self.slots + 3 * self.points
    }

    // Where a word stands that is 1 only where no component of the triangles is odd.
    pub fn even_at(self) -> usize
        ensures { result ≡ even_at self.slots self.points }
    {
        19 * self.slots + 3 * self.points
    }

    // The end of the mesh's own areas.
    pub fn mesh_end(self) -> usize
        ensures { result ≡ mesh_end self.slots self.points }
    {
        20 * self.slots + 3 * self.points
    }

    // Where a mark for each slot stands.
    pub fn marks_at(self) -> usize
        ensures { result ≡ marks_at self.slots self.points }
    {
        20 * self.slots + 3 * self.points
    }

    // Where the list of slots of the region in hand stands.
    pub fn list_at(self) -> usize
        ensures { result ≡ list_at self.slots self.points }
    {
        21 * self.slots + 3 * self.points
    }

    // Where the records of refused edges stand, three for each slot: first the other node of each edge.
    pub fn refused_at(self) -> usize
        ensures { result ≡ refused_at self.slots self.points }
    {
        22 * self.slots + 3 * self.points
    }

    // Where the first node of each front edge stands.
    pub fn front_u_at(self) -> usize
        ensures { result ≡ front_u_at self.slots self.points }
    {
        31 * self.slots + 5 * self.points
    }

    // Where the second node of each front edge stands.
    pub fn front_v_at(self) -> usize
        ensures { result ≡ front_v_at self.slots self.points }
    {
        34 * self.slots + 5 * self.points
    }

    // Where the lists of the front edges at each node stand: two links for each edge.
    pub fn front_links_at(self) -> usize
        ensures { result ≡ front_links_at self.slots self.points }
    {
        37 * self.slots + 5 * self.points
    }

    // Where it stands whether each front edge is in a loop already.
    pub fn front_used_at(self) -> usize
        ensures { result ≡ front_used_at self.slots self.points }
    {
        43 * self.slots + 5 * self.points
    }

    // Where the front edges stand loop after loop.
    pub fn order_at(self) -> usize
        ensures { result ≡ order_at self.slots self.points }
    {
        46 * self.slots + 5 * self.points
    }

    // Where the start of each loop stands.
    pub fn starts_at(self) -> usize
        ensures { result ≡ starts_at self.slots self.points }
    {
        49 * self.slots + 5 * self.points
    }

    // Where the loops stand in the order of their turns.
    pub fn done_at(self) -> usize
        ensures { result ≡ done_at self.slots self.points }
    {
        52 * self.slots + 5 * self.points
    }

    // Where it stands whether each front edge was tried.
    pub fn tried_at(self) -> usize
        ensures { result ≡ tried_at self.slots self.points }
    {
        55 * self.slots + 5 * self.points
    }

    // Where the first front edge of each point stands; at other times a mark for each point.
    pub fn heads_at(self) -> usize
        ensures { result ≡ heads_at self.slots self.points }
    {
        58 * self.slots + 5 * self.points
    }

    // Where the candidates at the first end of an edge stand.
    pub fn near_at(self) -> usize
        ensures { result ≡ near_at self.slots self.points }
    {
        58 * self.slots + 6 * self.points
    }

    // Where the candidates at the second end of an edge stand.
    pub fn far_at(self) -> usize
        ensures { result ≡ far_at self.slots self.points }
    {
        58 * self.slots + 7 * self.points
    }

    // Where the 2 s + 2 words of the stack of `live_regions` stand, the last area.
    pub fn stack_at(self) -> usize
        ensures { result ≡ stack_at self.slots self.points }
    {
        58 * self.slots + 8 * self.points
    }
}
