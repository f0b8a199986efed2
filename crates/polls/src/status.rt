// What the drive says of itself.
#[derive(Clone, Copy)]
pub struct SubsystemStatus {
    pub functional: bool,
    pub reset_not_required: bool,
    pub sanitize_failed: bool,
}
