//! What the words of a run ask for.

ghost use Rattle.std.specs.Prelude.{◌≤◌};

use osm_objects::UniqueId;

/// How areas are written.
#[derive(Clone, Copy, Debug, PartialEq, Eq)]
pub enum Format {
    /// One GeoJSON feature collection (RFC 7946).
    GeoJson,
    /// GeoJSON text sequences (RFC 8142): a feature a line.
    GeoJsonSeq,
    /// Well-known text and the tags, an area a line.
    Text,
}

/// What the words of `export` ask for.
#[derive(Clone, Copy, Debug, PartialEq, Eq)]
pub struct ExportSettings<'a> {
    /// The name of the input, `-` for standard input.
    pub file: &'a str,
    pub format: Format,
    /// The name of the output, `-` for standard output.
    pub output: &'a str,
    /// Whether an output file that is there already may be overwritten.
    pub overwrite: bool,
    /// Whether candidates without tags are kept.
    pub keep_untagged: bool,
    /// The ids of the written areas; None where they get none.
    pub ids: Option<UniqueId>,
    /// Whether GeoJSON text sequences are written without record separators.
    pub omit_rs: bool,
    /// Whether problems and notes go to the report.
    pub show_errors: bool,
    /// Whether the run stops at the first candidate with problems.
    pub stop_on_error: bool,
    /// The keys of areas as they are written, `building,landuse`: a closed way has an area only by one of them or by
    /// `area=yes`. None where no such list is given, as which a text that isn't KEYS counts, too.
    pub area_keys: Option<&'a str>,
    /// The keys of lines as they are written, in the same way: a closed way with one of them has an area only by
    /// `area=yes`.
    pub linear_keys: Option<&'a str>,
}

/// Which polygons `coastline` writes.
#[derive(Clone, Copy, Debug, PartialEq, Eq)]
pub enum OutputPolygons {
    Land,
    Water,
    /// Those of land, and behind them those of water.
    Both,
    Neither,
}

/// What the words of `coastline` ask for.
#[derive(Clone, Copy, Debug, PartialEq, Eq)]
pub struct CoastlineSettings<'a> {
    /// The name of the input, `-` for standard input.
    pub file: &'a str,
    /// The name of the output, `-` for standard output.
    pub output: &'a str,
    /// Whether an output file that is there already may be overwritten.
    pub overwrite: bool,
    /// In units of 1e-7 degree, up to 360 degrees: a gap of the coast is closed where it is shorter, so 0 closes none.
    pub close_distance: u32,
    /// How many points a piece may have that isn't cut again; 0 cuts none.
    pub max_points: u32,
    /// In units of 1e-7 degree, up to 10 degrees: how far each half of a piece reaches beyond the line of a cut.
    pub bbox_overlap: u32,
    pub polygons: OutputPolygons,
    /// Whether rings are cut short where they cross themselves, and long rings are kept before the short ones that cross them.
    pub cut_crossings: bool,
    pub ghost max_points_in: { max_points ≤ 1_000_000 },
    pub ghost bbox_overlap_in: { bbox_overlap ≤ 100_000_000 },
}

/// What the words of `sample` ask for.
#[derive(Clone, Copy, Debug, PartialEq, Eq)]
pub struct SampleSettings {
    /// How many cells the sample has along each side of its square, from 1 to 100.
    pub count: u8,
    pub ghost count_in: { (1 ≤ count) × (count ≤ 100) },
}

/// What the words of `coast-filter` ask for.
#[derive(Clone, Copy, Debug, PartialEq, Eq)]
pub struct FilterSettings<'a> {
    /// The name of the input, `-` for standard input.
    pub file: &'a str,
    /// The name of the output, `-` for standard output.
    pub output: &'a str,
    /// Whether an output file that is there already may be overwritten.
    pub overwrite: bool,
}

/// What the words of `certify` ask for.
#[derive(Clone, Copy, Debug, PartialEq, Eq)]
pub struct CertifySettings<'a> {
    /// The name of the input, `-` for standard input.
    pub file: &'a str,
    /// The name of the text that is certified, `-` for standard input.
    pub text: &'a str,
    /// Whether candidates without tags are kept.
    pub keep_untagged: bool,
    /// The ids of the written areas; None where they have none.
    pub ids: Option<UniqueId>,
    /// The keys of areas and those of lines as they are written, with the meanings that they have in `ExportSettings`.
    pub area_keys: Option<&'a str>,
    pub linear_keys: Option<&'a str>,
}

/// What the words of `locate` ask for.
#[derive(Clone, Copy, Debug, PartialEq, Eq)]
pub struct LocateSettings<'a> {
    /// The name of the input, `-` for standard input.
    pub file: &'a str,
    /// The name of the points, `-` for standard input.
    pub points: &'a str,
    /// The name of the output, `-` for standard output.
    pub output: &'a str,
    /// Whether an output file that is there already may be overwritten.
    pub overwrite: bool,
    /// Whether candidates without tags are kept.
    pub keep_untagged: bool,
    /// The keys of areas and those of lines as they are written, with the meanings that they have in `ExportSettings`.
    pub area_keys: Option<&'a str>,
    pub linear_keys: Option<&'a str>,
}

/// What the words of a run ask for.
#[derive(Clone, Copy, Debug, PartialEq, Eq)]
pub enum Job<'a> {
    Export(ExportSettings<'a>),
    Coastline(CoastlineSettings<'a>),
    Sample(SampleSettings),
    Filter(FilterSettings<'a>),
    Certify(CertifySettings<'a>),
    Locate(LocateSettings<'a>),
}
