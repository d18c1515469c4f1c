//! What holds of every output. Each law is the contract of a function that does nothing.

ghost use Rattle.std.specs.Prelude.{◌≡◌};
ghost use Rattle.ept_meta.specs.OutputLaws.{OutputIsOne, BuildFileIsOfOne, PointsCanBeSampled, FilesHaveOutputNames, NamesStandOnce, NamesGrow};
ghost use Rattle.ept_meta.specs.Output.{metadata_name, manifest_name, build_file_name, EachIsOutsideWork};

use crate::names::{BUILD_FILE, MANIFEST, METADATA};

/// Points have one output, whichever counts and extent describe them. A build file is that of one configuration only.
/// Points within the bounds, no two of which have the same id, can be sampled.
pub fn output_once_law()
    ensures one { OutputIsOne }
    ensures build { BuildFileIsOfOne }
    ensures sampled { PointsCanBeSampled }
{}

/// The three texts are the names of files of an output, and each file of an output has such a name. If the points are
/// within the bounds, no two files have the same name. No name of an output is in the folders `ept-work` and
/// `ept-spill`, which only a build uses. With more points, under the same rules and step, each name of the output is
/// still one of its names.
pub fn output_names_law()
    ensures metadata { METADATA.now ≡ metadata_name }
    ensures manifest { MANIFEST.now ≡ manifest_name }
    ensures build_file { BUILD_FILE.now ≡ build_file_name }
    ensures outside { EachIsOutsideWork }
    ensures names { FilesHaveOutputNames }
    ensures once { NamesStandOnce }
    ensures grow { NamesGrow }
{}
