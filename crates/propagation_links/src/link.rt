/// A side of a point: the number of its component, the place of the point in the component's list of points, and whether
/// the side is outward. Both numbers begin at 0.
#[derive(Clone, Copy, PartialEq, Eq)]
pub struct PointAt {
    pub component: u32,
    pub point: u32,
    pub outward: bool,
}

/// A link: errors propagate from the one side to the other.
#[derive(Clone, Copy, PartialEq, Eq)]
pub struct Link {
    pub from: PointAt,
    pub to: PointAt,
}
