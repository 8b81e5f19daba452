//! The text around the features of an output, by its format.

ghost use Rattle.std.specs.Prelude.{◌≡◌};
ghost use Rattle.job_export.specs.Framing.{header, footer, record_separator, before_feature, after_feature};

use osm_words::Format;

/// The text at the start of an output.
pub(crate) fn header(format: Format) -> &'static str
    ensures { result.now ≡ header format }
{
    match format {
        Format::GeoJson => "{\"type\":\"FeatureCollection\",\"features\":[",
        Format::GeoJsonSeq | Format::Text => "",
    }
}

/// The text at its end.
pub(crate) fn footer(format: Format) -> &'static str
    ensures { result.now ≡ footer format }
{
    match format {
        Format::GeoJson => "\n]}\n",
        Format::GeoJsonSeq | Format::Text => "",
    }
}

/// The record separator of text sequences, unless it is left out.
fn record_separator(omit_rs: bool) -> &'static str
    ensures { result.now ≡ record_separator omit_rs }
{
    if omit_rs { "" } else { "\x1e" }
}

/// The text before a feature that follows `earlier` features.
pub(crate) fn before_feature(format: Format, omit_rs: bool, earlier: u64) -> &'static str
    ensures { result.now ≡ before_feature format omit_rs earlier }
{
    match format {
        Format::GeoJson if earlier == 0 => "\n",
        Format::GeoJson => ",\n",
        Format::GeoJsonSeq => record_separator(omit_rs),
        Format::Text => "",
    }
}

/// The text after a feature.
pub(crate) fn after_feature(format: Format) -> &'static str
    ensures { result.now ≡ after_feature format }
{
    match format {
        Format::GeoJsonSeq => "\n",
        Format::GeoJson | Format::Text => "",
    }
}
