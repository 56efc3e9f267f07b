// What an event is composed from; `sort` is its type, a word that the language keeps. 255 in primary and short:
// missing; in scheme: as shipped.
// Kept: 255 for missing, and no Option: the C interface (`mf_compose_event`), and `composing:source_fits` refuses what lies between.
#[derive(Clone, Copy, Debug, PartialEq, Eq)]
pub struct Source {
    pub sort: u8,
    pub number: u8,
    pub primary: u8,
    pub short: u8,
    pub groups: u32,
    pub information: u16,
    pub scheme: u8,
}
