//! The words of osmpoly's command line, read by one simple command of `clap` for each command of the program.
#![tactic(auto)]

mod arguments;
mod certify_command;
mod certify_words;
mod coastline_command;
mod coastline_words;
mod degrees;
mod export_command;
mod export_words;
mod fault;
mod filter_command;
mod filter_words;
mod locate_command;
mod locate_words;
mod number;
mod parsed;
mod ranges;
mod sample_command;
mod sample_words;
mod settings;
mod words;

pub use fault::{WordsError, WordsFault};
pub use osm_objects::UniqueId;
pub use settings::{
    CertifySettings, CoastlineSettings, ExportSettings, FilterSettings, Format, Job,
    LocateSettings, OutputPolygons, SampleSettings,
};
pub use words::{
    Command, command_of, job_of, plain_certify_words_are_taken, plain_coastline_words_are_taken,
    plain_filter_words_are_taken, plain_locate_words_are_taken, plain_sample_words_are_taken,
    plain_words_are_taken,
};
