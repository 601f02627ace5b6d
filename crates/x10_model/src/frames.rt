//! Laws of frames. Each function does nothing: its contract is the law.

ghost use Rattle.x10_model.specs.LawsOfFrames.{IsReadAgain, IsOneFrame, IsSpelledSo, IsWider, IsSpawn, IsLeast, IsReport, IsCycle, IsWideCycle, IsTooManyRoots, IsPastTable, IsNotNext, IsHalfAClass, IsUnusedNode, IsTooManyFields, IsTooLong, IsUnusedText, IsNotText, IsUnknownTag, IsNoPlace, IsNoHome, IsMoreBytes, IsVersion, IsTooManyNodes, IsHalfANumber, IsFrameType, IsOtherPlaces};

/// Reading the bytes of a frame, in either version, gives that frame.
pub fn spelled_is_read()
    ensures again { IsReadAgain }
{}

/// No two frames have the same bytes, and no bytes are of both versions.
pub fn one_frame_for_its_bytes()
    ensures same { IsOneFrame }
{}

/// Bytes that are read as a frame are its spelling in one of the versions.
pub fn read_is_spelled()
    ensures fits_and_spelled { IsSpelledSo }
{}

/// A frame that has a spelling in version 1 has one in version 2.
pub fn all_fit_the_wide_version()
    ensures wider { IsWider }
{}

/// Frames and their bytes, both ways.
pub fn examples()
    ensures spawn { IsSpawn }
    ensures least { IsLeast }
    ensures report { IsReport }
    ensures cycle { IsCycle }
    ensures wide_cycle { IsWideCycle }
{}

/// Bytes that are refused, each with its first fault.
pub fn refusals()
    ensures too_many_roots { IsTooManyRoots }
    ensures past_table { IsPastTable }
    ensures not_next { IsNotNext }
    ensures half_a_class { IsHalfAClass }
    ensures unused_node { IsUnusedNode }
    ensures too_many_fields { IsTooManyFields }
    ensures too_long { IsTooLong }
    ensures unused_text { IsUnusedText }
    ensures not_text { IsNotText }
    ensures unknown_tag { IsUnknownTag }
    ensures no_place { IsNoPlace }
    ensures no_home { IsNoHome }
    ensures more_bytes { IsMoreBytes }
    ensures version { IsVersion }
    ensures too_many_nodes { IsTooManyNodes }
    ensures half_a_number { IsHalfANumber }
    ensures frame_type { IsFrameType }
    ensures other_places { IsOtherPlaces }
{}
