//! The descriptions: a choice of fields from several releases of 3GPP TS 44.060 clause 11 and TS 44.018
//! clause 10. What the fields written here do not cover is kept raw.

ghost use Rattle.std.specs.Prelude.{◌≡◌, ◌≤◌, length};
ghost use Rattle.csn_catalogue.specs.Text.{catalogue_text};

/// The text, as it is read. It ends with a line feed.
const TEXT: &[u8] = b"\
<message end> ::= { null | 0 { null | <spare padding> } | 1 <Additions : bit (**)> } ;
<rest end> ::= { null | L { null | <spare padding> } | H <Additions : bit (**)> } ;

<Uplink Control Block> ::= {
    000001 <Packet Control Acknowledgement>
  | 000010 <Packet Downlink Ack/Nack>
  | 000011 <Packet Uplink Dummy Control Block>
  | 000101 <Packet Resource Request> } ;

<Downlink Control Block> ::= {
    000010 <Packet Downlink Assignment>
  | 000100 <Packet Polling Request>
  | 001000 <Packet TBF Release>
  | 001001 <Packet Uplink Ack/Nack>
  | 001010 <Packet Uplink Assignment>
  | 100011 <Packet PDCH Release>
  | 100101 <Packet Downlink Dummy Control Block> } ;

<Packet Control Acknowledgement> ::=
    <TLLI : bit (32)> <CTRL_ACK : bit (2)> <message end> ;

<Packet Uplink Dummy Control Block> ::= <TLLI : bit (32)> <message end> ;

<Packet Downlink Ack/Nack> ::=
    <DOWNLINK_TFI : bit (5)>
    <Ack/Nack Description : <Ack/Nack Description IE>>
    { 0 | 1 <Channel Request Description : <Channel Request Description IE>> }
    <Channel Quality Report : <Channel Quality Report struct>>
    <message end> ;

<Channel Quality Report struct> ::=
    <C_VALUE : bit (6)> <RXQUAL : bit (3)> <SIGN_VAR : bit (6)>
    { 0 | 1 <I_LEVEL : bit (4)> } * 8 ;

<Packet Resource Request> ::=
    { 0 | 1 <ACCESS_TYPE : bit (2)> }
    { 0 <Global TFI : <Global TFI IE>> | 1 <TLLI : bit (32)> }
    { 0 | 1 <MS Radio Access Capability : <MS Radio Access Capability struct>> }
    <Channel Request Description : <Channel Request Description IE>>
    { 0 | 1 <CHANGE_MARK : bit (2)> }
    <C_VALUE : bit (6)>
    { 0 | 1 <SIGN_VAR : bit (6)> }
    { 0 | 1 <I_LEVEL : bit (4)> } * 8
    <message end> ;

<MS Radio Access Capability struct> ::=
    <Access Capability> { 1 <Access Capability> } ** 0 ;
<Access Capability> ::=
    <Access Technology Type : bit (4)> <Length : bit (7)>
    <Contents : bit (val(Length))> ;

<Global TFI IE> ::= { 0 <UPLINK_TFI : bit (5)> | 1 <DOWNLINK_TFI : bit (5)> } ;

<Ack/Nack Description IE> ::=
    <FINAL_ACK_INDICATION : bit> <STARTING_SEQUENCE_NUMBER : bit (7)>
    <RECEIVED_BLOCK_BITMAP : bit (64)> ;

<Channel Request Description IE> ::=
    <PEAK_THROUGHPUT_CLASS : bit (4)> <RADIO_PRIORITY : bit (2)>
    <RLC_MODE : bit> <LLC_PDU_TYPE : bit> <RLC_OCTET_COUNT : bit (16)> ;

<Packet Timing Advance IE> ::=
    { 0 | 1 <TIMING_ADVANCE_VALUE : bit (6)> }
    { 0 | 1 <TIMING_ADVANCE_INDEX : bit (4)> <TIMING_ADVANCE_TIMESLOT_NUMBER : bit (3)> } ;

<Power Control Parameters IE> ::=
    <ALPHA : bit (4)> { 0 | 1 <GAMMA : bit (5)> } * 8 ;

<Starting Frame Number IE> ::=
    { 0 <T1' : bit (5)> <T3 : bit (6)> <T2 : bit (5)> | 1 <k : bit (13)> } ;

<Extension Bits IE> ::=
    <extension length : bit (6)> <extension : bit (val(extension length) + 1)> ;

<Packet Request Reference IE> ::=
    <RANDOM_ACCESS_INFORMATION : bit (11)> <FRAME_NUMBER : bit (16)> ;

<Frequency Parameters IE> ::=
    <TSC : bit (3)>
    { 00 <ARFCN : bit (10)>
    | 01 <MAIO : bit (6)> <MA_NUMBER : bit (4)>
         { 0 | 1 <CHANGE_MARK_1 : bit (2)> { 0 | 1 <CHANGE_MARK_2 : bit (2)> } }
    | 10 <MAIO : bit (6)> <GPRS Mobile Allocation : <GPRS Mobile Allocation IE>>
    | 11 <MAIO : bit (6)> <HSN : bit (6)> <Length of MA Frequency List : bit (4)>
         <MA Frequency List : octet (val(Length of MA Frequency List) + 3)> } ;

<GPRS Mobile Allocation IE> ::=
    <HSN : bit (6)>
    { 0 | 1 <RFL number list : <RFL number list struct>> }
    { 0 <MA_LENGTH : bit (6)> <MA_BITMAP : bit (val(MA_LENGTH) + 1)>
    | 1 { 0 | 1 <ARFCN index list : <ARFCN index list struct>> } } ;
<RFL number list struct> ::= <RFL_NUMBER : bit (4)> { 1 <RFL_NUMBER : bit (4)> } ** 0 ;
<ARFCN index list struct> ::= <ARFCN_INDEX : bit (6)> { 1 <ARFCN_INDEX : bit (6)> } ** 0 ;

<Packet Polling Request> ::=
    <PAGE_MODE : bit (2)>
    { 0 <Global TFI : <Global TFI IE>> | 10 <TLLI : bit (32)> | 110 <TQI : bit (16)> }
    <TYPE_OF_ACK : bit>
    <message end> ;

<Packet Downlink Dummy Control Block> ::=
    <PAGE_MODE : bit (2)>
    { 0 | 1 <PERSISTENCE_LEVEL : bit (4)> * 4 }
    <message end> ;

<Packet TBF Release> ::=
    <PAGE_MODE : bit (2)> 0 <Global TFI : <Global TFI IE>>
    <UPLINK_RELEASE : bit> <DOWNLINK_RELEASE : bit> <TBF_RELEASE_CAUSE : bit (4)>
    <message end> ;

<Packet PDCH Release> ::=
    <PAGE_MODE : bit (2)> 1 <TIMESLOTS_AVAILABLE : bit (8)> <message end> ;

<Packet Uplink Ack/Nack> ::=
    <PAGE_MODE : bit (2)> 00 <UPLINK_TFI : bit (5)>
    { 0 <CHANNEL_CODING_COMMAND : bit (2)>
        <Ack/Nack Description : <Ack/Nack Description IE>>
        { 0 | 1 <CONTENTION_RESOLUTION_TLLI : bit (32)> }
        { 0 | 1 <Packet Timing Advance : <Packet Timing Advance IE>> }
        { 0 | 1 <Power Control Parameters : <Power Control Parameters IE>> }
        { 0 | 1 <Extension Bits : <Extension Bits IE>> }
        <Later parts : bit (**)>
    | 1 <EGPRS part : bit (**)> } ;

<Packet Downlink Assignment> ::=
    <PAGE_MODE : bit (2)>
    { 0 | 1 <PERSISTENCE_LEVEL : bit (4)> * 4 }
    { 0 <Global TFI : <Global TFI IE>> | 10 <TLLI : bit (32)> }
    { 0 <MAC_MODE : bit (2)> <RLC_MODE : bit> <CONTROL_ACK : bit>
        <TIMESLOT_ALLOCATION : bit (8)>
        <Packet Timing Advance : <Packet Timing Advance IE>>
        { 0 | 1 <P0 : bit (4)> <BTS_PWR_CTRL_MODE : bit> <PR_MODE : bit> }
        { 0 | 1 <Frequency Parameters : <Frequency Parameters IE>> }
        { 0 | 1 <DOWNLINK_TFI_ASSIGNMENT : bit (5)> }
        { 0 | 1 <Power Control Parameters : <Power Control Parameters IE>> }
        { 0 | 1 <TBF Starting Time : <Starting Frame Number IE>> }
        { 0 <message end> | 1 <Measurement Mapping and later parts : bit (**)> }
    | 1 <EGPRS part : bit (**)> } ;

<Packet Uplink Assignment> ::=
    <PAGE_MODE : bit (2)>
    { 0 | 1 <PERSISTENCE_LEVEL : bit (4)> * 4 }
    { 0 <Global TFI : <Global TFI IE>> | 10 <TLLI : bit (32)> | 110 <TQI : bit (16)>
    | 111 <Packet Request Reference : <Packet Request Reference IE>> }
    { 0 <CHANNEL_CODING_COMMAND : bit (2)> <TLLI_BLOCK_CHANNEL_CODING : bit>
        <Packet Timing Advance : <Packet Timing Advance IE>>
        { 0 | 1 <Frequency Parameters : <Frequency Parameters IE>> }
        { 01 <Dynamic Allocation : <Dynamic Allocation struct>> <message end>
        | 10 <Single Block Allocation : <Single Block Allocation struct>> <message end>
        | 11 <Fixed Allocation and later parts : bit (**)> }
    | 1 <EGPRS part : bit (**)> } ;

<Dynamic Allocation struct> ::=
    <Extended Dynamic Allocation : bit>
    { 0 | 1 <P0 : bit (4)> <PR_MODE : bit> }
    <USF_GRANULARITY : bit>
    { 0 | 1 <UPLINK_TFI_ASSIGNMENT : bit (5)> }
    { 0 | 1 <RLC_DATA_BLOCKS_GRANTED : bit (8)> }
    { 0 | 1 <TBF Starting Time : <Starting Frame Number IE>> }
    { 0 { 0 | 1 <USF_TN : bit (3)> } * 8
    | 1 <ALPHA : bit (4)> { 0 | 1 <USF_TN : bit (3)> <GAMMA_TN : bit (5)> } * 8 } ;

<Single Block Allocation struct> ::=
    <TIMESLOT_NUMBER : bit (3)>
    { 0 | 1 <ALPHA : bit (4)> <GAMMA_TN : bit (5)> }
    { 0 | 1 <P0 : bit (4)> <BTS_PWR_CTRL_MODE : bit> <PR_MODE : bit> }
    <TBF Starting Time : <Starting Frame Number IE>> ;

<SI 1 Rest Octets> ::=
    { L | H <NCH Position : bit (5)> } <BAND_INDICATOR : { L | H }> <spare padding> ;

<Selection Parameters struct> ::=
    { L | H <CBQ : bit> <CELL_RESELECT_OFFSET : bit (6)>
            <TEMPORARY_OFFSET : bit (3)> <PENALTY_TIME : bit (5)> } ;
<Power Offset struct> ::= { L | H <Power Offset : bit (2)> } ;
<GPRS Indicator struct> ::= { L | H <RA_COLOUR : bit (3)> <SI13_POSITION : bit> } ;

<SI 3 Rest Octets> ::=
    <Selection Parameters : <Selection Parameters struct>>
    <Optional Power Offset : <Power Offset struct>>
    <SI 2ter Indicator : { L | H }>
    <Early Classmark Sending Control : { L | H }>
    <Scheduling : { L | H <WHERE : bit (3)> }>
    <GPRS Indicator : <GPRS Indicator struct>>
    <Later parts : bit (**)> ;

<SI 4 Rest Octets> ::=
    <Selection Parameters : <Selection Parameters struct>>
    <Optional Power Offset : <Power Offset struct>>
    <GPRS Indicator : <GPRS Indicator struct>>
    <Later parts : bit (**)> ;

<SI 13 Rest Octets> ::= {
    L { null | <spare padding> }
  | H <SI 13 Contents> <rest end> } ;
<SI 13 Contents> ::=
    <BCCH_CHANGE_MARK : bit (3)> <SI_CHANGE_FIELD : bit (4)>
    { 0 | 1 <SI13_CHANGE_MARK : bit (2)> <GPRS Mobile Allocation : <GPRS Mobile Allocation IE>> }
    { 0 <RAC : bit (8)> <SPGC_CCCH_SUP : bit> <PRIORITY_ACCESS_THR : bit (3)>
        <NETWORK_CONTROL_ORDER : bit (2)>
        <GPRS Cell Options : <GPRS Cell Options IE>>
        <GPRS Power Control Parameters : <GPRS Power Control Parameters struct>>
    | 1 <PSI1_REPEAT_PERIOD : bit (4)>
        <PBCCH Description : <PBCCH Description struct>> } ;
<GPRS Power Control Parameters struct> ::=
    <ALPHA : bit (4)> <T_AVG_W : bit (5)> <T_AVG_T : bit (5)>
    <PC_MEAS_CHAN : bit> <N_AVG_I : bit (4)> ;
<PBCCH Description struct> ::=
    <Pb : bit (4)> <TSC : bit (3)> <TN : bit (3)>
    { 00 | 01 <ARFCN : bit (10)> | 1 <MAIO : bit (6)> } ;

<GPRS Cell Options IE> ::=
    <NMO : bit (2)> <T3168 : bit (3)> <T3192 : bit (3)> <DRX_TIMER_MAX : bit (3)>
    <ACCESS_BURST_TYPE : bit> <CONTROL_ACK_TYPE : bit> <BS_CV_MAX : bit (4)>
    { 0 | 1 <PAN_DEC : bit (3)> <PAN_INC : bit (3)> <PAN_MAX : bit (3)> }
    { 0 | 1 <Extension Length : bit (6)>
            { bit (val(Extension Length) + 1) & {
                { 0 | 1 <EGPRS_PACKET_CHANNEL_REQUEST : bit> <BEP_PERIOD : bit (4)> }
                <PFC_FEATURE_MODE : bit> <DTM_SUPPORT : bit>
                <BSS_PAGING_COORDINATION : bit> <Later parts : bit (**)> } // } } ;

<IA Rest Octets> ::= {
    LL { null | <spare padding> }
  | LH <LH part : bit (**)>
  | HL <HL part : bit (**)>
  | HH { 00 <IA Packet Uplink Assignment>
       | 01 <IA Packet Downlink Assignment> <rest end>
       | 1 <HH second part : bit (**)> } } ;

<IA Packet Uplink Assignment> ::= {
    1 <TFI_ASSIGNMENT : bit (5)> <POLLING : bit>
      { 0 <USF : bit (3)> <USF_GRANULARITY : bit>
          { 0 | 1 <P0 : bit (4)> <PR_MODE : bit> }
          <CHANNEL_CODING_COMMAND : bit (2)> <TLLI_BLOCK_CHANNEL_CODING : bit>
          { 0 | 1 <ALPHA : bit (4)> } <GAMMA : bit (5)>
          { 0 | 1 <TIMING_ADVANCE_INDEX : bit (4)> }
          { 0 | 1 <TBF_STARTING_TIME : bit (16)> }
          <rest end>
      | 1 <Fixed allocation and later parts : bit (**)> }
  | 0 { 0 | 1 <ALPHA : bit (4)> } <GAMMA : bit (5)>
      01 <TBF_STARTING_TIME : bit (16)> <rest end> } ;

<IA Packet Downlink Assignment> ::=
    <TLLI : bit (32)>
    { 0 | 1 <TFI_ASSIGNMENT : bit (5)> <RLC_MODE : bit>
            { 0 | 1 <ALPHA : bit (4)> } <GAMMA : bit (5)>
            <POLLING : bit> <TA_VALID : bit> }
    { 0 | 1 <TIMING_ADVANCE_INDEX : bit (4)> }
    { 0 | 1 <TBF_STARTING_TIME : bit (16)> }
    { 0 | 1 <P0 : bit (4)> <BTS_PWR_CTRL_MODE : bit> <PR_MODE : bit> } ;
";

/// The text of all descriptions: the root of each entry is one of its rules.
pub fn text() -> &'static [u8]
    ensures text { result.now ≡ catalogue_text }
    ensures few { length result.now ≤ 262144 }
{
    TEXT
}
