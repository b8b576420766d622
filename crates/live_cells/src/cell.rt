use dots::Member;
use lww_registers::Fields;

/// The cell of a live dot, borrowed: its member, and its fields.
#[derive(Clone, Copy)]
pub struct Cell<'a> {
    /// The member.
    pub member: &'a Member,
    /// Its fields. In a member set at least one of them is set.
    pub fields: &'a Fields,
}
