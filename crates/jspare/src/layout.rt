//! Pages with spare bytes.

/// The bytes of a page, and the spare ones behind it.
#[derive(Clone, Copy, Debug, PartialEq, Eq)]
pub struct PageLayout {
    pub page: u32,
    pub spare: u32,
}

/// The usual layouts of NAND chips.
pub const LAYOUTS: [PageLayout; 4] = [
    PageLayout {
        page: 512,
        spare: 16,
    },
    PageLayout {
        page: 2048,
        spare: 64,
    },
    PageLayout {
        page: 4096,
        spare: 128,
    },
    PageLayout {
        page: 4096,
        spare: 224,
    },
];
