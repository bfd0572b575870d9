//! The calls for C, under the names of include/adf.h. Each is the call of adf_memory that its body names; what that does, and
//! what it promises, stands there.
#![tactic(auto)]

ghost use Rattle.std.specs.Prelude.{◌≡◌};
ghost use Rattle.adf_base.specs.declared.hash.Letters.TheVariants.{Ascii};
ghost use Rattle.adf_cmd.specs.Answers.{adf_command};
ghost use Rattle.adf_names.specs.VolumeTypes.{letters_of_type};
ghost use Rattle.adf_survey_cmd.specs.Answers.{survey_without_files};
ghost use Rattle.adf_volume.specs.declared.types.Types.TheVariants.{Plain, WithInternational};
ghost use Rattle.adf_memory_types.specs.{CachedCalls.ChecksAnyType, CachedFiles.ReadsAnyFile};
ghost use Rattle.adf_memory_types.specs.{CachedOwners.TellsAnyOwners, CachedTables.FillsAnyTables};
ghost use Rattle.adf_memory.specs.CheckCalls.{ChecksImage, FillsTables, FindsEntry, TellsOwners};
ghost use Rattle.adf_memory.specs.SurveyCalls.{FillsFound, FillsLinks, FillsParts, FillsSurvey, FindsFound, PutsSubject};
ghost use Rattle.adf_memory.specs.SurveyCalls.{ReadsFound, RescuesVolume, TellsFoundRoles};
ghost use Rattle.adf_memory.specs.TextCalls.{WritesCause, WritesDiskCause, WritesEscape, WritesPartitionFault};
ghost use Rattle.adf_memory.specs.VolumeCalls.{BuildsVolume, ClearsBoot, CopiesBoot, FillsPartitions, InstallsBoot};
ghost use Rattle.adf_memory.specs.{VolumeCalls.NeedsBlocks, VolumeCalls.TellsBoot, Words.RunsInMemory};

use adf_base::Letters;
use adf_file_runs::{VERSION_NUMBER, WithoutFiles};
use adf_memory::{
    BootBlocks, Built, Contents, FoundEntry, FoundPart, Moved, NewVolume, RescueInput, RescueTold,
    SubjectTold, Surveyed, TableAddition, TableDisk, TableEntry, TableFinding, TableLink,
    TableLoss, TablePartition, Verdict, build_volume, cause_text, check_image, clear_boot,
    copy_boot, disk_cause_text, escape_text, find_entry, find_found, install_boot, need_volume,
    owners_of, partition_fault_text, put_disk, put_found_blocks, put_found_parts, put_index,
    put_links, put_subject, put_survey, read_found, rescue_volume, run_in_memory, survey_owners,
    tell_boot,
};
use adf_memory_types::{check_image_types, owners_of_types, put_index_types, read_bytes_types};
use adf_names::letters_of_type;
use adf_volume::Types;
use std::alloc::Global;

#[unsafe(no_mangle)]
pub extern "C" fn adf_version() -> u32
    ensures { result ≡ 10100 }
{
    VERSION_NUMBER
}

#[unsafe(no_mangle)]
pub extern "C" fn adf_cause_text(cause: u8, room: &mut [u8]) -> usize
    ensures { WritesCause cause room.old room.new result }
{
    cause_text(cause, room)
}

#[unsafe(no_mangle)]
pub extern "C" fn adf_disk_cause_text(cause: u8, room: &mut [u8]) -> usize
    ensures { WritesDiskCause cause room.old room.new result }
{
    disk_cause_text(cause, room)
}

#[unsafe(no_mangle)]
pub extern "C" fn adf_partition_fault_text(fault: u8, room: &mut [u8]) -> usize
    ensures { WritesPartitionFault fault room.old room.new result }
{
    partition_fault_text(fault, room)
}

#[unsafe(no_mangle)]
pub extern "C" fn adf_escape(name: &[u8], room: &mut [u8]) -> usize
    ensures { WritesEscape name.now room.old room.new result }
{
    escape_text(name, room)
}

#[unsafe(no_mangle)]
pub extern "C" fn adf_check(alloc: Global, image: &[u8], verdict: &mut Verdict) -> u8
    ensures { ChecksImage Plain image.now verdict.new result }
{
    check_image(alloc, Types::Plain, image, verdict)
}

#[unsafe(no_mangle)]
pub extern "C" fn adf_check_types(alloc: Global, image: &[u8], verdict: &mut Verdict) -> u8
    ensures { ChecksAnyType image.now verdict.new result }
{
    check_image_types(alloc, image, verdict)
}

#[unsafe(no_mangle)]
pub extern "C" fn adf_owners(alloc: Global, image: &[u8], roles: &mut [u8]) -> u8
    ensures { TellsOwners Plain image.now roles.old roles.new result }
{
    owners_of(alloc, Types::Plain, image, roles)
}

#[unsafe(no_mangle)]
pub extern "C" fn adf_owners_types(alloc: Global, image: &[u8], roles: &mut [u8]) -> u8
    ensures { TellsAnyOwners image.now roles.old roles.new result }
{
    owners_of_types(alloc, image, roles)
}

#[unsafe(no_mangle)]
pub extern "C" fn adf_index(
    alloc: Global,
    image: &[u8],
    entries: &mut [TableEntry],
    blocks: &mut [u32],
    contents: &mut Contents,
) -> u8
    ensures { FillsTables Plain image.now entries.old entries.new blocks.old blocks.new contents.new result }
{
    put_index(alloc, Types::Plain, image, entries, blocks, contents)
}

#[unsafe(no_mangle)]
pub extern "C" fn adf_index_types(
    alloc: Global,
    image: &[u8],
    entries: &mut [TableEntry],
    blocks: &mut [u32],
    contents: &mut Contents,
) -> u8
    ensures { FillsAnyTables image.now entries.old entries.new blocks.old blocks.new contents.new result }
{
    put_index_types(alloc, image, entries, blocks, contents)
}

#[unsafe(no_mangle)]
pub extern "C" fn adf_find(
    alloc: Global,
    entries: &[TableEntry],
    path: &[u8],
    node: &mut usize,
) -> u8
    ensures { FindsEntry Ascii entries.now path.now node.old node.new result }
{
    find_entry(alloc, Letters::Ascii, entries, path, node)
}

#[unsafe(no_mangle)]
pub extern "C" fn adf_find_types(
    alloc: Global,
    kind: u32,
    entries: &[TableEntry],
    path: &[u8],
    node: &mut usize,
) -> u8
    ensures { FindsEntry (letters_of_type kind) entries.now path.now node.old node.new result }
{
    find_entry(alloc, letters_of_type(kind), entries, path, node)
}

#[unsafe(no_mangle)]
pub extern "C" fn adf_read(
    image: &[u8],
    entries: &[TableEntry],
    blocks: &[u32],
    node: usize,
    offset: usize,
    room: &mut [u8],
) -> usize
    ensures { ReadsAnyFile image.now entries.now blocks.now node offset room.old room.new result }
{
    read_bytes_types(image, entries, blocks, node, offset, room)
}

#[unsafe(no_mangle)]
pub extern "C" fn adf_survey_subject(
    alloc: Global,
    image: &[u8],
    blocks: u32,
    room: &mut [u8],
    told: &mut SubjectTold,
) -> u8
    ensures { PutsSubject image.now room.old room.new told.new result }
{
    put_subject(alloc, image, blocks, room, told)
}

#[unsafe(no_mangle)]
pub extern "C" fn adf_survey_index(
    alloc: Global,
    image: &[u8],
    findings: &mut [TableFinding],
    entries: &mut [FoundEntry],
    surveyed: &mut Surveyed,
) -> u8
    ensures { FillsSurvey image.now findings.old findings.new entries.old entries.new surveyed.new result }
{
    put_survey(alloc, image, findings, entries, surveyed)
}

#[unsafe(no_mangle)]
pub extern "C" fn adf_survey_find(alloc: Global, image: &[u8], path: &[u8], node: &mut usize) -> u8
    ensures { FindsFound path.now node.old node.new result }
{
    find_found(alloc, image, path, node)
}

#[unsafe(no_mangle)]
pub extern "C" fn adf_survey_links(
    alloc: Global,
    image: &[u8],
    links: &mut [TableLink],
    count: &mut usize,
) -> u8
    ensures { FillsLinks image.now links.old links.new count.old count.new result }
{
    put_links(alloc, image, links, count)
}

#[unsafe(no_mangle)]
pub extern "C" fn adf_survey_parts(alloc: Global, image: &[u8], parts: &mut [FoundPart]) -> u8
    ensures { FillsParts image.now parts.old parts.new result }
{
    put_found_parts(alloc, image, parts)
}

#[unsafe(no_mangle)]
pub extern "C" fn adf_survey_owners(alloc: Global, image: &[u8], roles: &mut [u8]) -> u8
    ensures { TellsFoundRoles image.now roles.old roles.new result }
{
    survey_owners(alloc, image, roles)
}

#[unsafe(no_mangle)]
pub extern "C" fn adf_found_blocks(
    image: &[u8],
    parts: &[FoundPart],
    node: usize,
    header: u32,
    table: &mut [u32],
) -> usize
    ensures { FillsFound image.now table.old table.new result }
{
    put_found_blocks(image, parts, node, header, table)
}

#[unsafe(no_mangle)]
pub extern "C" fn adf_found_read(
    image: &[u8],
    header: u32,
    table: &[u32],
    offset: usize,
    room: &mut [u8],
    lost: &mut usize,
) -> usize
    ensures { ReadsFound image.now table.now offset room.old room.new result }
{
    read_found(image, header, table, offset, room, lost)
}

#[unsafe(no_mangle)]
pub extern "C" fn adf_rescue(
    alloc: Global,
    image: &[u8],
    blocks: u32,
    room: &mut [u8],
    losses: &mut [TableLoss],
    paths: &mut [u8],
    told: &mut RescueTold,
) -> u8
    ensures { RescuesVolume Plain image.now room.old room.new losses.old losses.new paths.old paths.new told.new result }
{
    let types = Types::Plain;
    let input = RescueInput {
        image,
        blocks,
        types,
    };
    rescue_volume(alloc, input, room, losses, paths, told)
}

#[unsafe(no_mangle)]
pub extern "C" fn adf_rescue_types(
    alloc: Global,
    image: &[u8],
    blocks: u32,
    room: &mut [u8],
    losses: &mut [TableLoss],
    paths: &mut [u8],
    told: &mut RescueTold,
) -> u8
    ensures { RescuesVolume WithInternational image.now room.old room.new losses.old losses.new paths.old paths.new
        told.new result }
{
    let types = Types::WithInternational;
    let input = RescueInput {
        image,
        blocks,
        types,
    };
    rescue_volume(alloc, input, room, losses, paths, told)
}

#[unsafe(no_mangle)]
pub extern "C" fn adf_build(
    alloc: Global,
    volume: &NewVolume,
    additions: &[TableAddition],
    contents: &[u8],
    room: &mut [u8],
    built: &mut Built,
) -> u8
    ensures { BuildsVolume volume.now additions.now contents.now room.old room.new built.new result }
{
    build_volume(alloc, volume, additions, contents, room, built)
}

#[unsafe(no_mangle)]
pub extern "C" fn adf_need(
    alloc: Global,
    volume: &NewVolume,
    additions: &[TableAddition],
    contents: &[u8],
    built: &mut Built,
) -> u8
    ensures { NeedsBlocks volume.now additions.now contents.now built.new result }
{
    need_volume(alloc, volume, additions, contents, built)
}

#[unsafe(no_mangle)]
pub extern "C" fn adf_boot(image: &[u8], boot: &mut BootBlocks) -> u8
    ensures { TellsBoot image.now boot.old boot.new result }
{
    tell_boot(image, boot)
}

#[unsafe(no_mangle)]
pub extern "C" fn adf_boot_install(image: &mut [u8]) -> u8
    ensures { InstallsBoot image.old image.new result }
{
    install_boot(image)
}

#[unsafe(no_mangle)]
pub extern "C" fn adf_boot_copy(image: &mut [u8], source: &[u8]) -> u8
    ensures { CopiesBoot source.now image.old image.new result }
{
    copy_boot(image, source)
}

#[unsafe(no_mangle)]
pub extern "C" fn adf_boot_clear(image: &mut [u8]) -> u8
    ensures { ClearsBoot image.old image.new result }
{
    clear_boot(image)
}

#[unsafe(no_mangle)]
pub extern "C" fn adf_disk_index(
    alloc: Global,
    bytes: &[u8],
    blocks: u64,
    partitions: &mut [TablePartition],
    disk: &mut TableDisk,
) -> u8
    ensures { FillsPartitions bytes.now blocks partitions.old partitions.new disk.new result }
{
    put_disk(alloc, bytes, blocks, partitions, disk)
}

#[unsafe(no_mangle)]
pub extern "C" fn adf_run(
    alloc: Global,
    words: &[u8],
    input: &[u8],
    output: &mut [u8],
    errors: &mut [u8],
    moved: &mut Moved,
) -> u8
    ensures { RunsInMemory adf_command words.now input.now output.old output.new errors.new moved.new result }
{
    run_in_memory::<adf_cmd::Work>(alloc, words, input, output, errors, moved)
}

#[unsafe(no_mangle)]
pub extern "C" fn adf_survey_run(
    alloc: Global,
    words: &[u8],
    input: &[u8],
    output: &mut [u8],
    errors: &mut [u8],
    moved: &mut Moved,
) -> u8
    ensures { RunsInMemory survey_without_files words.now input.now output.old output.new errors.new moved.new result }
{
    run_in_memory::<WithoutFiles<adf_survey_cmd::Work>>(alloc, words, input, output, errors, moved)
}
