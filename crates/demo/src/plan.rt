use pan_ast::Limits;

/// What a demo is to show: a site of so many machines that is made from a number, and the limits of its runs.
#[derive(Clone, Copy)]
pub struct Plan {
    pub count: u32,
    pub start: u64,
    pub limits: Limits,
}
